//! Words that are keywords, and words that only look like one.
//!
//! Expected is what docs/FORMAT.md, "Directives", says: a first word is compared
//! byte by byte. A call takes constant time.

use std::process::Abort;
use std::test::Fail;
use wq_decl::Keyword;

#[test]
fn a_keyword_is_compared_byte_by_byte(rt: HostRuntime) -> Result<(), Fail> {
    for (word, keyword) in [
        (b"item".as_slice(), Some(Keyword::Item)),
        (b"flush", Some(Keyword::Flush)),
        (b"flushwq", Some(Keyword::FlushWq)),
        (b"flush?", Some(Keyword::FlushUnsure)),
        (b"flushwq?", Some(Keyword::FlushWqUnsure)),
        (b"ordered", Some(Keyword::Ordered)),
        (b"", None),
        (b"ite", None),
        (b"items", None),
        (b"Item", None),
        (b"flus", None),
        (b"flushw", None),
        (b"flushwqs", None),
        (b"FLUSH", None),
        (b"order", None),
        (b"ordered\r", None),
    ] {
        assert!(rt; Keyword::of(word) == keyword);
    }
    Ok(())
}
