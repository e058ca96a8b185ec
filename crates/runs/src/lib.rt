// Whole runs of a reader: any list of calls, and what they tell.

#![tactic(auto)]

mod pile;

ghost use Rattle.std.specs.Prelude.{◌≡◌, ℕ, IfOk};
ghost use Rattle.rules.specs.Config.{config_of};
ghost use Rattle.reader.specs.Faults.{tells};
ghost use Rattle.reader.specs.Limits.{max_len};
ghost use Rattle.reader.specs.Opens.{open_told, Opened};
ghost use Rattle.reader.specs.Views.{view_of, config};
ghost use Rattle.runs.specs.Calls.{call_of, calls_of, reply as reply_to, behind_call, behind_calls};
ghost use Rattle.runs.specs.Closed.{ClosedBehind};
ghost use Rattle.runs.specs.Runs.{state_of, Drives, Runs, NumberedReply, AllNumbered, Promised, LooksBack};

use finder::Finder;
use pieces::{Piece, ReadFault};
pub use pile::{Pile, PileCall, Turn, drive_pile};
use reader::{Closed, OpenFault, Reader};
use syntax::Settings;

// What is opened.
#[derive(Clone, Copy, Debug, PartialEq, Eq)]
pub enum Mode {
    Template,
    Expression,
}

// What is asked of a reader: what comes next, looked for by this finder, or whether it stands at a resting point.
#[derive(Clone, Copy, Debug, PartialEq, Eq)]
pub enum Ask<F> {
    Next(F),
    Rest,
}

// What a call tells.
#[derive(Clone, Copy, Debug, PartialEq, Eq)]
pub enum Reply {
    Told(Result<Option<Piece>, ReadFault>),
    Rests(bool),
}

// A call: what is asked, and the reply, once it is told.
#[derive(Clone, Copy, Debug, PartialEq, Eq)]
pub struct Call<F> {
    pub ask: Ask<F>,
    pub reply: Option<Reply>,
}

// Opens a reader.
fn open<'t>(settings: &Settings, mode: Mode, template: &'t [u8]) -> Result<Reader<'t>, OpenFault>
    ensures told { tells result ≡ open_told max_len template.now }
    ensures opened { IfOk result (λ r. Opened settings.now (state_of mode) template.now r) }
{
    match mode {
        Mode::Template => Reader::open_template(settings, template),
        Mode::Expression => Reader::open_expression(settings, template),
    }
}

// What a reader tells when it is asked.
fn answer<F: Finder>(reader: &mut Reader, ask: &Ask<F>) -> Reply
    ensures value { result ≡ reply_to (config reader.old) (view_of reader.old) (call_of F.Finder.openings ask.now) }
    ensures view { view_of reader.new ≡ behind_call (config reader.old) (view_of reader.old) (call_of F.Finder.openings ask.now) }
    ensures settings { reader.new.settings ≡ reader.old.settings }
    ensures numbered { NumberedReply result }
{
    match ask {
        Ask::Next(finder) => Reply::Told(reader.next_piece(finder)),
        Ask::Rest => Reply::Rests(reader.rest()),
    }
}

// Asks a reader one thing after another.
fn ask_all<F: Finder>(reader: &mut Reader, calls: &mut [Call<F>])
    ensures replies { Drives (config reader.old) (view_of reader.old) F.Finder.openings calls.old calls.new }
    ensures view { view_of reader.new ≡ behind_calls (config reader.old) (view_of reader.old) (calls_of F.Finder.openings calls.old) }
    ensures numbered { AllNumbered calls.new }
{
    for call in calls.iter_mut() {
        call.reply = Some(answer(reader, &call.ask));
    }
}

// Opens a reader, makes one call after another on it, writes each reply beside what was asked, and closes the reader. A refusal of opening leaves the calls as
// they are. `closed` is what closing tells by these replies alone, whichever finders served the calls.
// `promised` is what the run as a whole promises where each finder means the openings of the settings: it does not matter which of them serves a call, no byte
// is lost, doubled or invented, no piece is misnamed, and no earlier text reaches past a resting point. `lines` is a law of the rules and speaks of no run:
// they keep only the bytes since the last LF, and looking back over these tells what looking back over all that was read would. So `promised` can speak of the
// whole template.
pub fn drive<F: Finder>(
    settings: &Settings,
    mode: Mode,
    template: &[u8],
    calls: &mut [Call<F>],
) -> Result<Closed, OpenFault>
    ensures told { tells result ≡ open_told max_len template.now }
    ensures replies { Runs (config_of settings.now) (state_of mode) template.now F.Finder.openings calls.old calls.new result }
    ensures numbered { IfOk result (λ c. AllNumbered calls.new) }
    ensures closed { ClosedBehind calls.new result }
    ensures promised { Promised settings.now (state_of mode) template.now (calls_of F.Finder.openings calls.old) calls.new result }
    ensures lines { (i : ℕ) → LooksBack template.now i }
{
    let mut reader = open(settings, mode, template)?;
    ask_all(&mut reader, calls);
    Ok(reader.close())
}
