// Reading faults as faults of layers.
ghost use Rattle.layers.specs.Layers.{fault_line, shift_fault};

use super::base::Base;
use super::parts::Placed;
use pieces::ReadFault;

impl Placed for ReadFault {
    ghost line = { fault_line };

    ghost shifted = { shift_fault };

    fn line(&self) -> u16 {
        self.span.start.line
    }

    fn shift(self, base: Base) -> ReadFault {
        ReadFault {
            span: base.shift_span(self.span),
            ..self
        }
    }
}
