//! What a refused call returns, for every layer of the governor.
#![tactic(auto)]

ghost use Rattle.std.specs.Prelude.{◌≡◌, Some};
ghost use Rattle.refusal.specs.Text.{refusal_text};
ghost use Rattle.refusal.specs.Refusals.{refusal_with};

use std::fmt;

/// The layers of the governor, lowest first: a refusal names the one that refused.
#[derive(Clone, Copy, PartialEq, Eq, Debug)]
pub enum Layer {
    /// The priority queue, of ready jobs or of planned ticks.
    Queue,
    /// The power models.
    Power,
    /// The reader and the writer of records.
    Record,
    /// The book of open jobs.
    Book,
    /// The bench, which works the records of a file. It refuses nothing of its own today: what it is told by a layer
    /// below keeps that layer.
    Bench,
}

/// The values that a refusal returns after its number.
#[derive(Clone, Copy, PartialEq, Eq, Debug)]
pub enum Values {
    /// One value, as a ticket or an offset.
    One(u64),
    /// Of an overloaded interval: its first tick, the tick right after it, and the work inside it in units.
    Three(u64, u64, u64),
}

/// A refusal as the caller is told of it. `{}` writes its number and its values:
///
/// ```text
/// // record_tests: telling::a_refusal_is_printed_by_number_and_values
/// let refusal = Refusal { layer: Layer::Book, number: 8, values: Values::Three(1, 2, 6) };
/// format!("{refusal}")   // 8 1 2 6
/// ```
#[derive(Clone, Copy, PartialEq, Eq, Debug)]
pub struct Refusal {
    /// The layer that refused.
    pub layer: Layer,
    /// Why it refused, 1 to 13 as docs/REFUSALS.md lists them. A number and no enum: the firmware in C reads it.
    pub number: u8,
    /// What the refusal names.
    pub values: Values,
}

impl Refusal {
    /// The refusal of a layer with its number and one value.
    ///
    /// ```text
    /// // record_tests: telling::a_refusal_is_printed_by_number_and_values
    /// let refusal = Refusal::with_value(Layer::Record, 1, 48);
    /// format!("{refusal}")   // 1 48
    /// ```
    pub fn with_value(layer: Layer, number: u8, value: u64) -> Refusal
        ensures { result ≡ refusal_with layer number value }
    {
        Refusal {
            layer,
            number,
            values: Values::One(value),
        }
    }
}

impl fmt::Display for Refusal {
    ghost output = { λ r. Some (refusal_text r) };

    fn fmt<W: fmt::Write>(&self, f: &mut fmt::Formatter<W>) -> fmt::Result {
        let number = self.number;
        match self.values {
            Values::One(a) => write!(f, "{number} {a}"),
            Values::Three(a, b, c) => write!(f, "{number} {a} {b} {c}"),
        }
    }
}
