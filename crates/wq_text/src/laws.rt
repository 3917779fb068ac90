//! Laws about lines and words, as contracts of functions that compute nothing.
//!
//! They follow from the definitions of docs/FORMAT.md, "Lines, words and numbers", for every text. They say in other
//! words what a reader of a text relies on, and that no other way to cut the text has these properties.

ghost use Rattle.std.specs.List.{HoldsAt};
ghost use Rattle.std.specs.Prelude.{◌≡◌, ◌≢◌, ◌+◌, ◌<◌, ◌≤◌, ◌↔◌, ◌∷◌, ◌++◌, [], true, false, ℕ, List, length, map};
ghost use Rattle.std.specs.Prelude.{slice_range, All, AllPairs, Any, EachIndex};
ghost use Rattle.wq_text.specs.declared.text.TextError.TheVariants.{TextTooLong, LineTooLong};
ghost use Rattle.wq_text.specs.Limits.{limit_fault};
ghost use Rattle.wq_text.specs.Lines.{Piece, LineView, pieces, line_bytes, lines_of, AreThePieces};
ghost use Rattle.wq_text.specs.Comments.{before_comment, IsBeforeComment};
ghost use Rattle.wq_text.specs.Words.{WordView, words_from, words_of, AreTheWords};

/// A text has exactly one list of pieces: they make up the text, none holds a line feed, and only the last may lack
/// one.
pub fn pieces_are_the_only_ones()
    ensures are { (text : List ℕ) → AreThePieces text (pieces text) }
    ensures only { (text : List ℕ) (others : List Piece)
        → AreThePieces text others → others ≡ pieces text }
{}

/// One carriage return directly before a line feed is dropped, and nothing else: no second one, no other byte, and none
/// from a last line without a line feed.
pub fn one_carriage_return_is_dropped()
    ensures dropped { (bs : List ℕ) → line_bytes (record { bytes = bs ++ (13 ∷ []); ended = true }) ≡ bs }
    ensures others_stay { (bs : List ℕ) (b : ℕ) → b ≢ 13
        → line_bytes (record { bytes = bs ++ (b ∷ []); ended = true }) ≡ bs ++ (b ∷ []) }
    ensures none_of_nothing { line_bytes (record { bytes = []; ended = true }) ≡ [] }
    ensures last_line_stays { (bs : List ℕ) → line_bytes (record { bytes = bs; ended = false }) ≡ bs }
{}

/// Bytes have exactly one prefix without `#` that is all of them or ends directly before a `#`: what comes before the
/// comment.
pub fn a_comment_begins_at_the_first_hash()
    ensures is { (bs : List ℕ) → IsBeforeComment bs (before_comment bs) }
    ensures only { (bs front : List ℕ) → IsBeforeComment bs front → front ≡ before_comment bs }
{}

/// Bytes have exactly one list of words: no word holds a blank, each is as long as it can be, and only blanks are
/// around them.
pub fn words_are_the_only_ones()
    ensures are { (at : ℕ) (bs : List ℕ) → AreTheWords at bs (words_from at bs) }
    ensures only { (at : ℕ) (bs : List ℕ) (others : List WordView)
        → AreTheWords at bs others → others ≡ words_from at bs }
{}

/// The lines of a text are numbered from 1, stand in order at their offsets, and are what the pieces of the text hold,
/// each without one carriage return directly before its line feed.
pub fn lines_are_slices_of_the_text()
    ensures numbers { (text : List ℕ) → EachIndex (lines_of text)
        (λ k. HoldsAt (λ (line : LineView). line.no ≡ k + 1) (lines_of text) k) }
    ensures slices { (text : List ℕ) → All
        (λ (line : LineView). slice_range text line.start (line.start + length line.bytes) ≡ line.bytes)
        (lines_of text) }
    ensures within { (text : List ℕ)
        → All (λ (line : LineView). line.start + length line.bytes ≤ length text) (lines_of text) }
    ensures in_order { (text : List ℕ) → AllPairs
        (λ (line next : LineView). line.start + length line.bytes < next.start)
        (lines_of text) }
    ensures none_left_out { (text : List ℕ) → map (λ (line : LineView). line.bytes) (lines_of text)
        ≡ map line_bytes (pieces text) }
{}

/// The words of each line stand at their offsets in the text, within their line, in order, and apart from one another.
pub fn words_are_slices_of_the_text()
    ensures slices { (text : List ℕ) → All
        (λ line. All
        (λ (word : WordView). slice_range text word.start (word.start + length word.bytes) ≡ word.bytes)
        (words_of line))
        (lines_of text) }
    ensures within { (line : LineView) → All
        (λ (word : WordView). (line.start ≤ word.start)
        × (word.start + length word.bytes ≤ line.start + length line.bytes))
        (words_of line) }
    ensures in_order { (line : LineView) → AllPairs
        (λ (word next : WordView). word.start + length word.bytes < next.start)
        (words_of line) }
{}

/// The limits find no fault in exactly the texts that keep them. Otherwise the fault is that the text is too long or,
/// if it isn't, the first line that is too long.
pub fn limits_are_kept()
    ensures none { (max_text max_line : ℕ) (text : List ℕ)
        → (limit_fault max_text max_line text ≡ None)
        ↔ ((length text ≤ max_text)
        × All (λ (line : LineView). length line.bytes ≤ max_line) (lines_of text)) }
    ensures text_too_long { (max_text max_line : ℕ) (text : List ℕ)
        → (limit_fault max_text max_line text ≡ Some TextTooLong) ↔ (max_text < length text) }
    ensures line_too_long { (max_text max_line n : ℕ) (text : List ℕ)
        → (limit_fault max_text max_line text ≡ Some (LineTooLong n))
        ↔ ((length text ≤ max_text)
        × Any (λ (line : LineView). (line.no ≡ n) × (max_line < length line.bytes)) (lines_of text)
        × All (λ (line : LineView). line.no < n → length line.bytes ≤ max_line) (lines_of text)) }
{}
