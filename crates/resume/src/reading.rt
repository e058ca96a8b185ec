// What was told of a template, and how far two readings tell the same.
ghost use Rattle.std.specs.Prelude.{◌≤◌, length};

use byte_search::{after, until};
use pieces::Piece;
use places::Place;
use runs::Reply;

// A template and what was told of it.
#[derive(Clone, Copy)]
pub(crate) struct Reading<'t> {
    pub(crate) template: &'t [u8],
    pub(crate) replies: &'t [Reply],
}

// How far two readings tell the same: so many pieces, with so many bytes of text, up to a place, and whether that is all.
#[derive(Clone, Copy)]
pub(crate) struct Shared {
    pub(crate) pieces: u64,
    pub(crate) bytes: u64,
    pub(crate) reached: Place,
    pub(crate) is_all: bool,
}

// The piece that a reply tells, if it tells one.
pub(crate) fn piece_of(reply: &Reply) -> Option<Piece> {
    match reply {
        Reply::Told(Ok(piece)) => *piece,
        _ => None,
    }
}

// Whether a reply tells how the reading ends.
fn is_ending(reply: &Reply) -> bool {
    matches!(reply, Reply::Told(Ok(None)) | Reply::Told(Err(_)))
}

impl<'t> Reading<'t> {
    // What was told of a template, up to its ending.
    pub(crate) fn until_end(template: &'t [u8], replies: &'t [Reply]) -> Reading<'t> {
        let end = replies.iter().position(is_ending);
        Reading {
            template,
            replies: match end {
                Some(end) => &replies[..end + 1],
                None => replies,
            },
        }
    }

    // What was told behind the first replies.
    pub(crate) fn behind(&self, count: usize) -> Reading<'t>
        requires { count ≤ length self.now.replies.now }
    {
        Reading {
            replies: &self.replies[count..],
            ..*self
        }
    }

    // The bytes that are a piece's text.
    fn text(&self, piece: Piece) -> &'t [u8] {
        let text = piece.text;
        after(until(self.template, text.end as usize), text.start as usize)
    }

    // Whether a reply tells what one of another reading does: kind, text and value, the ending, or whether it rests. Places may differ.
    fn tells(&self, reply: &Reply, other: &Reading, again: &Reply) -> bool {
        match (reply, again) {
            (Reply::Told(Ok(Some(a))), Reply::Told(Ok(Some(b)))) => {
                a.kind == b.kind && a.value == b.value && self.text(*a) == other.text(*b)
            }
            (Reply::Told(Err(a)), Reply::Told(Err(b))) => a.kind == b.kind,
            _ => reply == again,
        }
    }

    // How many replies are told before the first that another reading does not tell.
    fn agreed(&self, other: &Reading) -> usize {
        let mut pairs = self.replies.iter().zip(other.replies.iter());
        let first = pairs.position(|(reply, again)| !self.tells(reply, other, again));
        first.unwrap_or(other.replies.len())
    }

    // How far another reading tells the same, from this place on.
    pub(crate) fn shared(&self, other: &Reading, start: Place) -> Shared {
        let agreed = self.agreed(other);
        let mut shared = Shared {
            pieces: 0,
            bytes: 0,
            reached: start,
            is_all: agreed == self.replies.len(),
        };
        for piece in self.replies.iter().take(agreed).filter_map(piece_of) {
            shared.pieces = shared.pieces.saturating_add(1);
            shared.bytes = shared.bytes.saturating_add(self.text(piece).len() as u64);
            shared.reached = piece.span.end;
        }
        shared
    }
}
