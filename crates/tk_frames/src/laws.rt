//! Laws of frames and of their order, each for every shape.
ghost use Rattle.std.specs.Prelude.{◌≡◌, ℕ, ◌<◌, List, [], ◌∷◌, ◌++◌, length, true, false};
ghost use Rattle.tk_shape.specs.declared.shape.Shape.{Shape};
ghost use Rattle.tk_shape.specs.Lengths.{write_len, record_len, reply_len};
ghost use Rattle.tk_frames.specs.declared.write_frame.WriteFrame.{WriteFrame};
ghost use Rattle.tk_frames.specs.declared.read_frame.ReadFrame.{ReadFrame};
ghost use Rattle.tk_frames.specs.declared.reply_frame.ReplyFrame.{ReplyFrame};
ghost use Rattle.tk_frames.specs.declared.entry.Placed.{Placed};
ghost use Rattle.tk_frames.specs.declared.entry.Entry.TheVariants.{Write, Mark};
ghost use Rattle.tk_frames.specs.Spelling.{write_frame, read_frame, reply_frame, placed_frame, entry_frame, read_kind};
ghost use Rattle.tk_frames.specs.Ranges.{IsWrite, IsRead, IsReply, IsPlaced};
ghost use Rattle.tk_frames.specs.Faults.{write_checks, read_checks, reply_checks, placed_checks, read_len_of};
ghost use Rattle.tk_frames.specs.Order.{is_mark_of, has_mark, records, before};
ghost use Rattle.tk_frames.specs.Laws.{IsOneSpelling, FindsEachFault};

/// No two frames of a kind that are in range for a shape share a spelling, and no spelling begins another.
pub fn one_spelling()
    ensures writes { (shape : Shape) → IsOneSpelling (IsWrite shape) write_frame }
    ensures placed { (shape : Shape) → IsOneSpelling (IsPlaced shape) placed_frame }
    ensures reads { (shape : Shape) → IsOneSpelling (IsRead shape) read_frame }
    ensures replies { (shape : Shape) → IsOneSpelling (IsReply shape) reply_frame }
{}

/// Bytes have no fault exactly where they spell a frame in range.
pub fn each_fault()
    ensures writes { (shape : Shape) → FindsEachFault (IsWrite shape) write_frame (write_checks shape) }
    ensures placed { (shape : Shape) → FindsEachFault (IsPlaced shape) placed_frame (placed_checks shape) }
    ensures reads { (shape : Shape) → FindsEachFault (IsRead shape) read_frame (read_checks shape) }
    ensures replies { (shape : Shape) → FindsEachFault (IsReply shape) reply_frame (reply_checks shape) }
{}

/// The frames of a shape have the lengths that it gives.
pub fn lengths()
    ensures writes { (shape : Shape) (w : WriteFrame) → IsWrite shape w → length (write_frame w) ≡ write_len shape }
    ensures records { (shape : Shape) (position : ℕ) (w : WriteFrame) → IsWrite shape w → length (entry_frame position (Write w)) ≡ record_len shape }
    ensures marks { (position e : ℕ) → length (entry_frame position (Mark e)) ≡ 14 }
    ensures reads { (shape : Shape) (r : ReadFrame) → IsRead shape r → length (read_frame r) ≡ read_len_of shape (read_kind r.seeds) }
    ensures replies { (shape : Shape) (r : ReplyFrame) → IsReply shape r → length (reply_frame r) ≡ reply_len shape }
{}

/// What stands before a mark: nothing before epoch 0, and otherwise the writes up to the mark, whatever follows it.
pub fn before_a_mark()
    ensures none { (E : List Placed) → before E 0 ≡ [] }
    ensures marked { (E F : List Placed) (m : Placed) (e : ℕ) → 0 < e → has_mark e E ≡ false → is_mark_of e m ≡ true → before (E ++ m ∷ F) e ≡ records E }
    ensures settled { (E F : List Placed) (e : ℕ) → has_mark e E ≡ true → before (E ++ F) e ≡ before E e }
    ensures unmarked { (E : List Placed) (e : ℕ) → 0 < e → has_mark e E ≡ false → before E e ≡ records E }
{}
