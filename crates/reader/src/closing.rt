// Closing.
ghost use Rattle.std.specs.Prelude.{◌≡◌, IfErr, IfSome};
ghost use Rattle.places.specs.Places.{capped};
ghost use Rattle.rules.specs.Shapes.{Numbered};
ghost use Rattle.reader.specs.Views.{view_of};

use super::reader::Reader;
use pieces::ReadFault;
use places::Place;
use stream::Ending;

// What a reader tells when it is closed: the end of its last piece, the ending if one was told, and the balance of brackets.
#[derive(Clone, Copy, Debug, PartialEq, Eq)]
pub struct Closed {
    pub end: Place,
    pub ending: Option<Ending<ReadFault>>,
    pub balance: i64,
}

impl<'t> Reader<'t> {
    // Takes the reader, and tells how far it came.
    pub fn close(self) -> Closed
        ensures end { result.end ≡ capped (view_of self.entry).place }
        ensures ending { result.ending ≡ (view_of self.entry).told }
        ensures balance { result.balance ≡ (view_of self.entry).balance }
        ensures numbered { IfSome result.ending (λ e. IfErr e (λ f. Numbered f.kind)) }
    {
        Closed {
            end: self.reading.place,
            ending: self.reading.told,
            balance: self.reading.balance,
        }
    }
}
