//! Each position of a list once.
ghost use Rattle.std.specs.Prelude.{◌≡◌, ◌%◌, ◌<◌, ◌≤◌, ◌↔◌, IsTrue, length};
ghost use Rattle.std.specs.List.{Contains};
ghost use Rattle.gm_game.specs.declared.limits.TheConstants.{MOVES};
ghost use Rattle.gm_game.specs.Children.{HasSame};
ghost use Rattle.gm_immediate.specs.inner.Gathered.{IsOnce, AreMarked};

use arrayvec::ArrayVec;
use gm_game::limits::MOVES;
use gm_game::position::Position;

/// How many marks there are.
const MARKS: u64 = 1024;

// Returns the mark of a position.
fn mark_of(p: Position) -> usize
    ensures value { result ≡ p.index % 1024 }
    ensures within { result < 1024 }
{
    (p.index % MARKS) as usize
}

// Returns whether `p` is in `once`, all of whose positions are marked. The marks rule out most others.
fn is_among(marks: &[bool], once: &[Position], p: Position) -> bool
    requires long { length marks.now ≡ 1024 }
    requires marked { AreMarked marks.now once.now }
    ensures { IsTrue result ↔ Contains once.now p }
{
    marks[mark_of(p)] && once.contains(&p)
}

/// Writes each position of a list over what `once` holds, in the order in which they come first.
pub(crate) fn list_once(list: &[Position], once: &mut ArrayVec<Position, MOVES>)
    requires { length list.now ≤ MOVES }
    ensures same { HasSame list.now once.new.items }
    ensures once { IsOnce once.new.items }
{
    once.clear();
    let mut marks = [false; MARKS as usize];
    for p in list {
        if !is_among(&marks, once.as_slice(), *p) {
            marks[mark_of(*p)] = true;
            once.push(*p);
        }
    }
}
