// Labels of timeline entries, by value (paper 01, "A panel").
#![tactic(auto)]

ghost use Rattle.std.specs.Prelude.{◌≡◌, ◌≤◌, length};
ghost use Rattle.label.specs.Label.{max_label, text, label_of, same_text, first_with, first_like};

// How many bytes a label has at most.
pub const MAX_LABEL: usize = 24;

// The text is the first len bytes; a length past MAX_LABEL counts as MAX_LABEL. Bytes past the text are no part of the label and
// are kept zero. An array and a length: in paper 01 `Vec` and `String` become fixed arrays, and a label is Copy, which an
// `ArrayVec` is not. No `==` is derived: it would compare the bytes past the text, too.
#[derive(Clone, Copy, Debug)]
pub struct Label {
    pub bytes: [u8; MAX_LABEL],
    pub len: u8,
}

impl Label {
    // The label whose text is the first MAX_LABEL of these bytes.
    pub fn new(text: &[u8]) -> Label
        ensures { result ≡ label_of text.now }
    {
        let n = text.len().min(MAX_LABEL);
        let mut bytes = [0; MAX_LABEL];
        bytes[..n].copy_from_slice(&text[..n]);
        Label {
            bytes,
            len: n as u8,
        }
    }

    // The bytes that count.
    pub fn text(&self) -> &[u8]
        ensures value { result.now ≡ text self.now }
        ensures bound { length result.now ≤ max_label }
    {
        &self.bytes[..usize::from(self.len).min(MAX_LABEL)]
    }

    // Whether target is the label's text.
    pub fn has_text(&self, target: &[u8]) -> bool
        ensures { result ≡ same_text (text self.now) target.now }
    {
        same_text(self.text(), target)
    }
}

// Whether two texts are equal, byte by byte.
#[tactic(auto, using(crate::proofs::SameText::same_pointwise))]
pub fn same_text(a: &[u8], b: &[u8]) -> bool
    ensures { result ≡ same_text a.now b.now }
{
    a == b
}

// The number of the first label with this text. A target above MAX_LABEL bytes is the text of none.
pub fn find(labels: &[Label], target: &[u8]) -> Option<usize>
    ensures { result ≡ first_with target.now labels.now }
{
    labels.iter().position(|l| l.has_text(target))
}

// The number of the first label with the text of label k.
#[tactic(auto, using(crate::proofs::First::likes))]
pub fn find_like(labels: &[Label], k: usize) -> Option<usize>
    ensures { result ≡ first_like k labels.now }
{
    find(labels, labels.get(k)?.text())
}
