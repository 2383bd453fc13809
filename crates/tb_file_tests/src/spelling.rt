// Names, codes and labels.

use tb_schema::{is_code, is_label, is_name};

// Texts that are all three, codes and labels, labels alone, and none.
static NAMES: [&'static [u8]; 2] = [b"Table", b"a_1"];

// The first eleven are the words that no name may be.
static CODES: [&'static [u8]; 14] = [
    b"table",
    b"by",
    b"where",
    b"and",
    b"not",
    b"in",
    b"with",
    b"totals",
    b"labels",
    b"person",
    b"record_key",
    b"_a",
    b"a-b",
    b"+.",
];

static LABELS: [&'static [u8]; 3] = [b"a b", b"\xC3\xA9", b""];

static OTHERS: [&'static [u8]; 3] = [b"a\rb", b"a\nb", b"\xC3"];

fn names() -> &'static [&'static [u8]] {
    &NAMES
}

fn codes() -> &'static [&'static [u8]] {
    &CODES
}

fn labels() -> &'static [&'static [u8]] {
    &LABELS
}

fn others() -> &'static [&'static [u8]] {
    &OTHERS
}

// Whether a text is a name, a code and a label.
fn is_so(text: &[u8], name: bool, code: bool, label: bool) -> bool {
    is_name(text) == name && is_code(text) == code && is_label(text) == label
}

#[test]
fn spelling(rt: HostRuntime) {
    assert!(rt; is_so(b"Total", true, false, true));
    for (i, text) in names().iter().enumerate() {
        assert!(rt; is_so(text, true, true, true), "name {i}");
    }
    for (i, text) in codes().iter().enumerate() {
        assert!(rt; is_so(text, false, true, true), "code {i}");
    }
    for (i, text) in labels().iter().enumerate() {
        assert!(rt; is_so(text, false, false, true), "label {i}");
    }
    for (i, text) in others().iter().enumerate() {
        assert!(rt; is_so(text, false, false, false), "other {i}");
    }
}

#[test]
fn lengths(rt: HostRuntime) {
    let letters = [b'x'; 201];
    assert!(rt; is_so(&letters[..16], true, true, true));
    assert!(rt; is_so(&letters[..17], true, false, true));
    assert!(rt; is_so(&letters[..32], true, false, true));
    assert!(rt; is_so(&letters[..33], false, false, true));
    assert!(rt; is_so(&letters[..200], false, false, true));
    assert!(rt; is_so(&letters, false, false, false));
}
