//! The lines that a drill prints: `answer` is the result of the call; `before` and `after` are the state before and after it, which
//! a refused call must not change; `again` is the result of a second call.
use gm_tiers::order::TierOrder;

/// What remains of a drill that succeeded.
pub type Done = Option<()>;

/// The result of a call.
#[derive(Clone, Copy)]
pub enum Said<'a> {
    Number(u64),
    Text(&'a str),
    OutOfMemory,
}

/// A result that is printed as a number.
pub trait Counted: Drop {
    fn count(&self) -> u64;
}

/// Returns the result of a call that fails only if memory is refused, as its number.
pub fn number_of<T: Counted, E: Drop>(answer: Result<T, E>) -> Said<'static> {
    match answer {
        Ok(made) => Said::Number(made.count()),
        Err(_) => Said::OutOfMemory,
    }
}

impl<T: Drop> Counted for Vec<T> {
    fn count(&self) -> u64 {
        self.len() as u64
    }
}

impl Counted for TierOrder {
    fn count(&self) -> u64 {
        self.tiers().len() as u64
    }
}

/// Prints a line for each of these words, with its result.
pub fn say_all<R: Print>(rt: &R, words: &[&str], results: &[Said<'_>]) -> Done {
    for (word, said) in words.iter().zip(results) {
        match said {
            Said::Number(number) => println!(rt; "{word}: {number}"),
            Said::Text(text) => println!(rt; "{word}: {text}"),
            Said::OutOfMemory => println!(rt; "{word}: out of memory"),
        }
        .ok()?;
    }
    Some(())
}

/// The words for the state before a call, its result, the state after it, the result of a second call, and the state at the end.
pub const WORDS: [&str; 5] = ["before", "answer", "after", "again", "end"];

/// Makes a call between the marks and then once more, and prints both results.
macro_rules! say_twice {
    ($rt:expr, $call:expr) => {{
        let first = $crate::marks::marked!($rt.alloc(), $call);
        let again = $call;
        $crate::said::say_all($rt, &["answer", "again"], &[first, again])
    }};
}

pub(crate) use say_twice;
