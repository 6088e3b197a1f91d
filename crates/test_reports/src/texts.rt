//! Texts that are parts of longer ones.
use bag_text::Text;
use std::rc::RcStr;

/// A longer text, whose second character takes two bytes.
const WHOLE: &str = "a\u{e9}\0b";

/// A place in it, a text, and whether it stands there.
type Row = (usize, &'static str, bool);

const ROWS: &[Row] = &[
    (0, "a", true),
    (0, "a\u{e9}\0b", true),
    (0, "b", false),
    (1, "\u{e9}\0", true),
    (2, "", false),
    (3, "", true),
    (4, "b", true),
    (4, "b\0", false),
    (5, "", true),
    (6, "", false),
    (usize::MAX, "a", false),
];

#[test]
fn a_text_is_found_where_it_stands(rt: HostRuntime) {
    let alloc = rt.alloc();
    let whole = String::from_str(alloc, WHOLE).expect(&rt, "succeeds");
    let whole = RcStr::from_string(whole).expect(&rt, "succeeds");
    for &(place, text, stands) in ROWS {
        let found = Text::part_of(&whole, place, text).expect(&rt, "succeeds");
        let is_it = match &found {
            Some(part) => part.as_str() == text,
            None => false,
        };
        assert!(rt;
            is_it == stands && found.is_some() == stands,
            "{place} {text}"
        );
    }
}
