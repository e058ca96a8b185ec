// Rest.
ghost use Rattle.std.specs.Prelude.{◌≡◌, Decides};
ghost use Rattle.reader.specs.Rests.{in_text, nothing_waits, failed, rests, AtFront, AtRest};
ghost use Rattle.reader.specs.Views.{view_of};

use super::reader::Reader;
use byte_search::until;
use pieces::ReadFault;
use rules::{LexerState, Pending};
use stream::Ending;

// Whether the reading stands in text.
fn is_text(state: LexerState) -> bool
    ensures { result ≡ in_text state }
{
    matches!(state, LexerState::Template)
}

// Whether nothing waits.
fn is_idle(pending: Pending) -> bool
    ensures { result ≡ nothing_waits pending }
{
    matches!(pending, Pending::Nothing)
}

// Whether a fault was told.
fn has_failed(told: Option<Ending<ReadFault>>) -> bool
    ensures { result ≡ failed told }
{
    matches!(told, Some(Err(_)))
}

impl<'t> Reader<'t> {
    // Whether the place that was reached is byte 0 or right behind an LF.
    fn is_line_start(&self) -> bool
        ensures { Decides result (AtFront self.now.reading.template.now self.now.reading.offset) }
    {
        match until(self.reading.template, self.reading.offset) {
            [] => true,
            [.., last] => *last == b'\n',
        }
    }

    // Whether the reader stands at a resting point: in text, with nothing waiting, no fault and no cut told, at byte 0 or right behind an LF. From there on
    // what it tells depends on its settings and the bytes to come alone.
    #[tactic(auto, using(crate::proofs::Fronts::front_told))]
    pub fn rest(&self) -> bool
        ensures value { result ≡ rests (view_of self.now) }
        ensures words { Decides result (AtRest self.now) }
    {
        let reading = &self.reading;
        // `&` and not `&&`: each test is a comparison, and so the value is the definition's by one step
        let sound = !has_failed(reading.told) & !reading.cut_told;
        is_text(reading.state) & is_idle(reading.pending) & sound & self.is_line_start()
    }
}
