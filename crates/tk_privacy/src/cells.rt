ghost use Rattle.std.specs.Prelude.{◌≡◌, ◌<◌, ◌≤◌, ◌+◌, ◌*◌, length};
ghost use Rattle.tk_shape.specs.Lengths.{turn_count, cell_len, read_cell_len, tape_len};
ghost use Rattle.tk_words.specs.Pieces.{piece};
ghost use Rattle.tk_words.specs.Words as words;

use tk_shape::Shape;

/// The bytes of a tape of a shape, as its cells.
#[derive(Drop)]
pub(crate) struct Cells<'a> {
    pub shape: &'a Shape,
    pub bytes: &'a [u8],
    ghost whole: { length bytes.now ≡ tape_len shape.now },
}

impl<'a> Cells<'a> {
    /// The write cell of a client's turn.
    pub(crate) fn write_cell(&self, turn: u32, client: u32) -> &[u8]
        requires turn_in { turn < turn_count self.now.shape.now }
        requires client_in { client < self.now.shape.now.clients }
        ensures cell { let cells = self.now in
            result.now ≡ words.write_cell cells.shape.now cells.bytes.now turn client }
        ensures len { length result.now ≡ cell_len self.now.shape.now }
    {
        let size = self.shape.cell_len() as usize;
        let part = self.write_part();
        piece(part, size, place(turn, self.shape.clients, client))
    }

    /// The read cell of a client's turn.
    pub(crate) fn read_cell(&self, turn: u32, client: u32) -> &[u8]
        requires turn_in { turn < turn_count self.now.shape.now }
        requires client_in { client < self.now.shape.now.clients }
        ensures cell { let cells = self.now in
            result.now ≡ words.read_cell cells.shape.now cells.bytes.now turn client }
        ensures len { length result.now ≡ read_cell_len self.now.shape.now }
    {
        let size = self.shape.read_cell_len() as usize;
        let part = self.read_part();
        piece(part, size, place(turn, self.shape.clients, client))
    }

    /// The cell of a number of a log.
    pub(crate) fn keyed_cell(&self, log: u32, number: u32) -> &[u8]
        requires log_in { log < self.now.shape.now.logs }
        requires number_in { number < turn_count self.now.shape.now }
        ensures cell { let cells = self.now in
            result.now ≡ words.keyed_cell cells.shape.now cells.bytes.now log number }
        ensures len { length result.now ≡ cell_len self.now.shape.now }
    {
        let size = self.shape.cell_len() as usize;
        let part = self.keyed_part();
        piece(part, size, place(log, self.shape.turns(), number))
    }

    /// All write cells.
    pub(crate) fn write_part(&self) -> &[u8]
        ensures { result.now ≡ words.write_part self.now.shape.now self.now.bytes.now }
    {
        &self.bytes[..self.write_len()]
    }

    /// All read cells.
    pub(crate) fn read_part(&self) -> &[u8]
        ensures { result.now ≡ words.read_part self.now.shape.now self.now.bytes.now }
    {
        let rest = &self.bytes[self.write_len()..];
        &rest[..self.read_len()]
    }

    /// All cells of numbers.
    pub(crate) fn keyed_part(&self) -> &[u8]
        ensures { result.now ≡ words.keyed_part self.now.shape.now self.now.bytes.now }
    {
        &self.bytes[self.write_len() + self.read_len()..]
    }

    fn write_len(&self) -> usize
        ensures { result ≡ words.write_cells_len self.now.shape.now }
    {
        let shape = self.shape;
        shape.turns() as usize * shape.clients as usize * shape.cell_len() as usize
    }

    fn read_len(&self) -> usize
        ensures { result ≡ words.read_cells_len self.now.shape.now }
    {
        let shape = self.shape;
        shape.turns() as usize * shape.clients as usize * shape.read_cell_len() as usize
    }
}

/// Piece number i of those that have `size` bytes each.
fn piece(bytes: &[u8], size: usize, i: usize) -> &[u8]
    requires { (i + 1) * size ≤ length bytes.now }
    ensures value { result.now ≡ piece size i bytes.now }
    ensures len { length result.now ≡ size }
{
    let start = i * size;
    &bytes[start..start + size]
}

/// The place of a column in rows of a width.
pub(crate) fn place(row: u32, width: u32, column: u32) -> usize
    requires low { row < 16384 }
    requires narrow { width ≤ 16384 }
    ensures { result ≡ row * width + column }
{
    row as usize * width as usize + column as usize
}
