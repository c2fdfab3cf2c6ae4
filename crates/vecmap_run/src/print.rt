//! Prints an answer.
ghost use Rattle.std.specs.Prelude.{Some};
ghost use Rattle.vecmap_run.specs.Print.{printed, printed_pairs};

use crate::answer::Answer;
use std::fmt;

/// An answer with the pairs of the map, as it is printed.
///
/// An answer that held the pairs would be borrowed from a map that the command may change. Each function that returns
/// one would then need a clause about the borrow, proved by hand.
#[derive(Clone, Copy)]
pub struct Printed<'m> {
    pub answer: Answer,
    pub pairs: &'m [(String, i64)],
}

impl fmt::Display for Printed<'_> {
    ghost output = { λ p. Some (printed p.answer p.pairs.now) };

    fn fmt<W: fmt::Write>(&self, f: &mut fmt::Formatter<W>) -> fmt::Result {
        match self.answer {
            Answer::Value(None) | Answer::Place(None) | Answer::Moved(None) => write!(f, "none"),
            Answer::Value(Some(value)) => write!(f, "some {value}"),
            Answer::Place(Some(index)) => write!(f, "some {index}"),
            Answer::Moved(Some((index, value))) => write!(f, "some {index} {value}"),
            Answer::Number(number) => write!(f, "{number}"),
            Answer::Pairs => write!(f, "{}", PrintedPairs(self.pairs)),
            Answer::Fault => write!(f, "fault"),
            Answer::OutOfRange => write!(f, "range"),
            Answer::NoMemory => write!(f, "memory"),
        }
    }
}

// Pairs, as they are printed.
#[derive(Clone, Copy)]
struct PrintedPairs<'m>(&'m [(String, i64)]);

impl fmt::Display for PrintedPairs<'_> {
    ghost output = { λ p. Some (printed_pairs p.0.now) };

    fn fmt<W: fmt::Write>(&self, f: &mut fmt::Formatter<W>) -> fmt::Result {
        let Some((first, others)) = self.0.split_first() else {
            return write!(f, "empty");
        };
        write!(f, "{}={}", first.0, first.1)?;
        for pair in others {
            write!(f, " {}={}", pair.0, pair.1)?;
        }
        Ok(())
    }
}
