//! Where lines and words are, and which bytes are a number.
//!
//! The rules are those of "Lines, words and numbers" in docs/FORMAT.md. The tests take time linear in the lengths of
//! the texts.

use std::process::Abort;
use std::test::Fail;
use wq_text::{Line, Span, Text, number};

/// Where a line or a word begins and ends, and its bytes.
type Place<'a> = (u32, u32, &'a [u8]);

/// A line, the part of it that isn't in a comment, and its words.
type Cut<'a> = (Place<'a>, &'a [u8], &'a [Place<'a>]);

/// Texts and their lines.
const TEXTS: &[(&[u8], &[Cut])] = &[
    (b"", &[]),
    (b"\n", &[((0, 0, b""), b"", &[])]),
    (b"ab", &[((0, 2, b"ab"), b"ab", &[(0, 2, b"ab")])]),
    (b"ab\n", &[((0, 2, b"ab"), b"ab", &[(0, 2, b"ab")])]),
    (
        b"wq a\n\n\t two \tx\t\n \t",
        &[
            ((0, 4, b"wq a"), b"wq a", &[(0, 2, b"wq"), (3, 4, b"a")]),
            ((5, 5, b""), b"", &[]),
            (
                (6, 15, b"\t two \tx\t"),
                b"\t two \tx\t",
                &[(8, 11, b"two"), (13, 14, b"x")],
            ),
            ((16, 18, b" \t"), b" \t", &[]),
        ],
    ),
    // No word is in a comment.
    (
        b"wq a # b\r\n\tx#y\r\r\nz\r",
        &[
            (
                (0, 8, b"wq a # b"),
                b"wq a ",
                &[(0, 2, b"wq"), (3, 4, b"a")],
            ),
            ((10, 15, b"\tx#y\r"), b"\tx", &[(11, 12, b"x")]),
            ((17, 19, b"z\r"), b"z\r", &[(17, 19, b"z\r")]),
        ],
    ),
];

/// Asserts that a line has these words in turn, and no others.
fn assert_words(rt: &impl Abort, line: &Line, words: &[Place]) {
    let mut want = words.iter();
    for word in line.words().again() {
        let span = word.span();
        assert!(rt; want.next() == Some(&(span.start, span.end, word.again().bytes())));
    }
    assert!(rt; want.next().is_none());
}

/// Asserts that a text has these lines in turn, each with its words, and no others.
fn assert_lines(rt: &impl Abort, text: &Text, lines: &[Cut]) {
    let mut no = 0u32;
    let mut want = lines.iter();
    for line in text.lines() {
        no = no.saturating_add(1);
        let (place, content, words) = want.next().expect(rt, "a line too many");
        let span = line.span();
        assert!(rt; line.no() == no && (span.start, span.end, line.bytes()) == *place);
        assert!(rt; line.content() == *content);
        assert_words(rt, &line, words);
    }
    assert!(rt; want.next().is_none());
}

#[test]
fn lines_and_words_stand_in_their_text(rt: HostRuntime) -> Result<(), Fail> {
    for (bytes, lines) in TEXTS {
        let text = Text::new(bytes, 99, 99)?;
        assert_lines(&rt, &text, lines);
    }
    let text = Text::new(b"wq a\n", 5, 4)?;
    assert!(rt; text.at(Span { start: 3, end: 4 }) == b"a".as_slice());
    assert!(rt; text.at(Span { start: 5, end: 5 }).is_empty());
    // No word is empty, or holds a blank.
    assert!(rt; number(b"").is_none() && number(b" 1").is_none());
    Ok(())
}

/// Texts whose first line isn't `wq` and one or two words with one space between them and nothing else, or with fewer
/// than sixteen bytes left after a space.
const UNLIKE: &[&[u8]] = &[
    b"wq a bc d\n# sixteen bytes, and more\n",
    b"wq\ta bc\n# sixteen bytes, and more\n",
    b"wq  a bc\n# sixteen bytes, and more\n",
    b"wq a  bc\n# sixteen bytes, and more\n",
    b"wq a bc \n# sixteen bytes, and more\n",
    b"wq a bc\r\n# sixteen bytes, and more\n",
    b"wq a bc#\n# sixteen bytes, and more\n",
    b" wq a bc\n# sixteen bytes, and more\n",
    b"wqs a bc\n# sixteen bytes, and more\n",
    b"wq\n# sixteen bytes, and more\n",
    b"\nwq a bc\n# sixteen bytes, and more\n",
    b"wq a bc\n",
];

#[test]
fn plain_lines_are_cut_in_one_pass(rt: HostRuntime) -> Result<(), Fail> {
    let text = Text::new(b"wq a bc\nwq d\nwq is the third line\n", 99, 99)?;
    let mut lines = text.lines();
    assert!(rt; lines.next_single(b"wq").is_none());
    let (first, second) = lines.next_pair(b"wq").expect(&rt, "two words");
    assert!(rt; (first.span().start, first.span().end, first.bytes()) == (3, 4, b"a".as_slice()));
    assert!(rt;
        (second.span().start, second.span().end, second.bytes()) == (5, 7, b"bc".as_slice())
    );
    assert!(rt; lines.next_pair(b"wq").is_none());
    let single = lines.next_single(b"wq").expect(&rt, "one word");
    assert!(rt;
        (single.span().start, single.span().end, single.bytes()) == (11, 12, b"d".as_slice())
    );
    let line = lines.next().expect(&rt, "a third line");
    assert!(rt; line.no() == 3 && line.span().start == 13 && lines.next().is_none());
    for bytes in UNLIKE {
        let text = Text::new(bytes, 99, 99)?;
        let mut lines = text.lines();
        assert!(rt; lines.next_pair(b"wq").is_none() && lines.next_single(b"wq").is_none());
        assert!(rt; lines.next().expect(&rt, "a first line").no() == 1);
    }
    Ok(())
}
