//! Feeds merged into one text.
use feed_merge::merge;
use std::alloc::AllocError;

#[test]
fn merges_feeds(rt: HostRuntime) -> Result<(), AllocError> {
    for (first, second, merged) in [
        ("", "", ""),
        ("\n", "a", "\r\na\r\n"),
        // By time, and at the same time by feed.
        (
            "2024-03-01T10:00:00Z,a\n2024-03-01T10:00:02Z,b\n",
            "2024-03-01T10:00:01Z,c\r\n2024-03-01T10:00:02Z,d\r\n",
            "2024-03-01T10:00:00Z,a\r\n2024-03-01T10:00:01Z,c\r\n2024-03-01T10:00:02Z,b\r\n2024-03-01T10:00:02Z,d\r\n",
        ),
        // A line without a time, and one with an earlier time, stay behind the line before them.
        (
            "2024-03-01T10:00:05Z\n# note\n\n2024-03-01T10:00:01Z,late\n",
            "2024-03-01T10:00:04Z,c\n2024-03-01T10:00:05Z,d",
            "2024-03-01T10:00:04Z,c\r\n2024-03-01T10:00:05Z\r\n# note\r\n\r\n2024-03-01T10:00:01Z,late\r\n2024-03-01T10:00:05Z,d\r\n",
        ),
        // Without a time yet a line comes first; a last line keeps its CR.
        (
            "2024-03-01T10:00:00Z,a\nb\r",
            "now,c\n1970-01-01T00:00:00Z",
            "now,c\r\n1970-01-01T00:00:00Z\r\n2024-03-01T10:00:00Z,a\r\nb\r\r\n",
        ),
    ] {
        let feeds = [
            Vec::from_slice(rt.alloc(), first.as_bytes())?,
            Vec::from_slice(rt.alloc(), second.as_bytes())?,
        ];
        let text = merge(rt.alloc(), &feeds)?;
        assert!(rt;
            text.as_slice() == merged.as_bytes(),
            "{first:?} {second:?}"
        );
    }
    Ok(())
}
