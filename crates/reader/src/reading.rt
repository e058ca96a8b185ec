// How far a template is read.
ghost use Rattle.std.proofs.Props.{props};
ghost use Rattle.std.specs.Prelude.{◌≡◌, ◌+◌, ◌-◌, ◌<◌, ◌≤◌, length, IfErr, IfSome, Some as already, None as untold};
ghost use Rattle.places.specs.Places.{capped};
ghost use Rattle.reader.specs.Limits.{max_len};
ghost use Rattle.rules.specs.At.{place_at, part_at, cut_part};
ghost use Rattle.rules.specs.Config.{config_of};
ghost use Rattle.rules.specs.Reading.{act, balance_at};
ghost use Rattle.rules.specs.Shapes.{held, least, level, magnitude, Forward, Numbered};
ghost use Rattle.rules.specs.Told.{placed};
ghost use Rattle.utf8.specs.Utf8.{prefix};

use super::chop::left_len;
use super::parts::{balance_at, fault_span, text_range};
use byte_search::{after, until};
use pieces::{Kind, Piece, ReadFault};
use places::{Place, Span};
use rules::{Fault, LexerState, Pending, Step, Verdict};
use stream::Ending;
use syntax::Settings;

// A template, how far it is read, what waits there, and what was told. The bytes behind are kept, since some rules look back over the line.
#[derive(Drop)]
pub struct Reading<'t> {
    pub(crate) template: &'t [u8],
    // how many bytes are left after the cut; all of them once the cut is told
    pub(crate) left: usize,
    // how many bytes are read
    pub(crate) offset: usize,
    // the place behind them
    pub(crate) place: Place,
    pub(crate) state: LexerState,
    pub(crate) pending: Pending,
    // brackets that were opened, less those that were closed
    pub(crate) balance: i64,
    // whether the cut was told, behind which no reader rests
    pub(crate) cut_told: bool,
    // the ending, once it was told
    pub(crate) told: Option<Ending<ReadFault>>,
    ghost small: { length template.now ≤ max_len },
    ghost within: { left ≤ length template.now },
    ghost inside: { offset + held pending ≤ left },
    ghost lively: { 0 < least pending },
    ghost shallow: { level state ≤ offset },
    ghost balanced: { magnitude balance ≤ offset },
    ghost agrees: { balance_at balance state ≡ balance },
    ghost here: { place ≡ capped (place_at template.now offset) },
    ghost wellformed: { prefix template.now ≡ length template.now },
    ghost numbered: { IfSome told (λ e. IfErr e (λ f. Numbered f.kind)) } by { Prim.hlevel props },
}

impl<'t> Reading<'t> {
    ghost use Rattle.reader.specs.Opens.{Leaves};
    ghost use Rattle.reader.specs.Views.{view, told_as, tell_by, unread, Keeps, behind_step, behind_cut, fault_at};

    // The start of a template, which starts in this state.
    pub(crate) fn start(settings: &Settings, state: LexerState, template: &'t [u8]) -> Reading<'t>
        requires small { length template.now ≤ max_len }
        requires flat { level state ≡ 0 }
        requires wellformed { prefix template.now ≡ length template.now }
        ensures template { result.template.now ≡ template.now }
        ensures view { view result ≡ unread (config_of settings.now) state template.now }
        ensures leaves { Leaves (config_of settings.now).keep_trailing template.now (view result).core.ahead }
    {
        Reading {
            template,
            left: left_len(settings, template),
            offset: 0,
            place: Place::start(),
            state,
            pending: Pending::Nothing,
            balance: 0,
            cut_told: false,
            told: None,
        }
    }

    // Takes a piece off the bytes ahead.
    #[inline(always)]
    fn take_step(&mut self, step: Step) -> Piece
        requires { Forward (self.old.left - self.old.offset) self.old.state self.old.pending step }
        ensures piece { result ≡ placed (place_at self.old.template.now self.old.offset) (part_at self.old.template.now self.old.offset step) }
        ensures view { view self.new ≡ behind_step self.old step }
    {
        let offset = self.offset;
        let start = self.place;
        let end = start.advance(until(after(self.template, offset), step.len));
        let text = text_range(offset, step.from, step.to);
        let balance = balance_at(self.balance, step.state);
        // a reading moves by the piece that it tells
        self.offset = offset + step.len;
        self.place = end;
        self.state = step.state;
        self.pending = step.pending;
        self.balance = balance;
        Piece {
            kind: step.kind,
            span: Span { start, end },
            text,
            value: step.value,
        }
    }

    // Takes the cut off, behind which nothing is left: then all of the template is left, and what was cut is a piece like others.
    fn take_cut(&mut self) -> Piece
        requires here { self.old.offset ≡ self.old.left }
        requires some { self.old.left < length self.old.template.now }
        ensures piece { result ≡ placed (place_at self.old.template.now self.old.offset) (cut_part self.old.template.now self.old.left) }
        ensures view { view self.new ≡ behind_cut self.old }
    {
        self.left = self.template.len();
        self.cut_told = true;
        let len = self.left - self.offset;
        self.take_step(Step::plain(Kind::Cut, len, self.state, self.pending))
    }

    // Tells an ending, which is kept.
    fn end(&mut self, ending: Ending<ReadFault>) -> Result<Option<Piece>, ReadFault>
        requires { IfErr ending (λ f. Numbered f.kind) }
        ensures value { result ≡ told_as ending }
        ensures view { view self.new ≡ record { core = (view self.old).core; place = (view self.old).place; balance = self.old.balance; told = already ending } }
    {
        self.told = Some(ending);
        ending.map(|()| None)
    }

    // A fault at its place.
    fn fault(&self, fault: Fault) -> ReadFault
        requires { fault.distance ≤ self.now.left - self.now.offset }
        ensures { result ≡ fault_at self.now fault }
    {
        let end = self
            .place
            .advance(until(after(self.template, self.offset), fault.distance));
        ReadFault {
            kind: fault.kind,
            span: fault_span(fault.kind, self.place, end),
        }
    }

    // Does what the rules say: takes a piece off, or the cut, or tells the ending.
    #[inline(always)]
    pub(crate) fn answer(&mut self, verdict: Verdict) -> Result<Option<Piece>, ReadFault>
        requires fits { Keeps self.old verdict }
        requires numbered { IfErr verdict (λ f. Numbered f.kind) }
        requires untold { self.old.told ≡ untold }
        ensures value { result ≡ (tell_by (view self.old) (act (view self.old).core verdict)).answer }
        ensures view { view self.new ≡ (tell_by (view self.old) (act (view self.old).core verdict)).after }
    {
        match verdict {
            Ok(Some(step)) => Ok(Some(self.take_step(step))),
            Ok(None) => {
                if self.left < self.template.len() {
                    Ok(Some(self.take_cut()))
                } else {
                    self.end(Ok(()))
                }
            }
            Err(fault) => {
                let fault = self.fault(fault);
                self.end(Err(fault))
            }
        }
    }
}
