// The reader.
ghost use Rattle.std.specs.Prelude.{◌≡◌, ◌≢◌, IfErr};
ghost use Rattle.rules.specs.Reading.{meaning, Unread};
ghost use Rattle.rules.specs.Shapes.{Numbered};
ghost use Rattle.rules.specs.Texts.{verdict as ruled, AllReal};
ghost use Rattle.syntax.specs.Openings.{openings_of};
ghost use Rattle.reader.specs.Views.{view_of, config, tell, items_of, ending_of, left_of, Keeps, Lawful};

use super::reading::Reading;
use super::verdicts::verdict_at;
use byte_search::until;
use finder::Finder;
use pieces::{Piece, ReadFault};
use rules::{Cursor, Verdict};
use stream::Stream;
use syntax::Settings;

// A template that is read under settings.
#[derive(Drop)]
pub struct Reader<'t> {
    pub(crate) settings: Settings,
    pub(crate) reading: Reading<'t>,
}

impl<'t> Reader<'t> {
    // What the rules say of the bytes ahead.
    #[inline(always)]
    fn verdict<F: Finder>(&self, finder: &F) -> Verdict
        ensures value { result ≡ ruled (F.Finder.openings finder.now) (config self.now) (view_of self.now).core }
        ensures fits { Keeps self.now.reading result }
        ensures numbered { IfErr result (λ f. Numbered f.kind) }
    {
        let reading = &self.reading;
        let here = Cursor {
            settings: &self.settings,
            source: until(reading.template, reading.left),
            offset: reading.offset,
        };
        verdict_at(&here, finder, reading.state, reading.pending)
    }

    // The next piece, or that the reading is finished, or its fault; how it ends is told again at every later call: what the rules tell with the finder's openings.
    #[inline(always)]
    pub fn next_piece<F: Finder>(&mut self, finder: &F) -> Result<Option<Piece>, ReadFault>
        ensures value { result ≡ (tell (F.Finder.openings finder.now) (config self.old) (view_of self.old)).answer }
        ensures view { view_of self.new ≡ (tell (F.Finder.openings finder.now) (config self.old) (view_of self.old)).after }
        ensures settings { self.new.settings ≡ self.old.settings }
        ensures ends { (meaning (openings_of self.old.settings) (config self.old) (view_of self.old).core).stop ≢ Unread }
        ensures real { AllReal (openings_of self.old.settings) }
        ensures numbered { IfErr result (λ f. Numbered f.kind) }
        ensures lawful { Lawful self.old (F.Finder.openings finder.now) → result ≡ (tell (openings_of self.old.settings) (config self.old) (view_of self.old)).answer }
        ensures lawful_view { Lawful self.old (F.Finder.openings finder.now) → view_of self.new ≡ (tell (openings_of self.old.settings) (config self.old) (view_of self.old)).after }
    {
        match self.reading.told {
            Some(ending) => ending.map(|()| None),
            None => {
                let verdict = self.verdict(finder);
                self.reading.answer(verdict)
            }
        }
    }
}

// A reader means the pieces still to come and how they end; a call is answered by that where the finder's openings are those of the settings.
impl<'t> Stream for Reader<'t> {
    type Item = Piece;

    type Fault = ReadFault;

    ghost items = { λ r. items_of (openings_of r.settings) (config r) (view_of r) };

    ghost ending = { λ r. ending_of (openings_of r.settings) (config r) (view_of r) };

    ghost serves = { Lawful };

    ghost left = { λ r. left_of (view_of r) };

    fn next<F: Finder>(&mut self, finder: &F) -> Result<Option<Piece>, ReadFault> {
        self.next_piece(finder)
    }
}
