use tk_shape::Field;

/// Why a line of an input is refused. Within a line they are tried in this order.
#[derive(Clone, Copy, Debug, PartialEq, Eq)]
pub enum Cause {
    /// The input ends where a line is due.
    Early,
    /// No line that may stand here: by its words, its number of fields, its spelling of numbers or
    /// its digits.
    Form,
    /// The shape's numbers break a limit, of which this is the first.
    Shape { field: Field, value: u64 },
    /// A number is out of range, and this is the first.
    Number { value: u32 },
    /// Followers don't ascend, or a text is said before the one in front of it.
    Order,
    /// The text is longer than a block has room for.
    Room { room: u32 },
    /// The text may not be sent; so many bytes of it may.
    Text { at: u64 },
    /// A line stands after the last section.
    After,
}
