// One byte on: whether it goes on, and where a text stands behind it. Of the bytes 110 is `n`, 60 `<`, 47 `/`, 62 `>`.
ghost use Rattle.std.specs.Prelude.{◌<◌, ◌≡◌, true, length};
ghost use Rattle.tables.specs.Limits.{word_limit};
ghost use Rattle.text_xml_form.specs.Elements.{label_right};
ghost use Rattle.text_xml_form.specs.Scan.{is_digit, further as furtherBy, leads as leadsTo, goes_further, ends_on, fits as fitsAt, stage_on, number_on, depth_on};

use tables::limits::WORD_LIMIT;

// A digit.
#[tactic(auto, unfolding(text_xml_form::specs::Scan::is_digit))]
fn digit(c: usize) -> bool
    ensures { result ≡ is_digit c }
{
    48 <= c && c <= 57
}

// A number with a digit behind it.
fn further(v: usize, c: usize) -> usize
    requires { (v < word_limit) × (is_digit c ≡ true) }
    ensures { result ≡ furtherBy v c }
{
    10 * v + (c - 48)
}

// The digits of w are those that a label begins with.
#[tactic(auto, unfolding(text_xml_form::specs::Scan::leads))]
fn leads(w: usize, l: usize) -> bool
    ensures { result ≡ leadsTo w l }
{
    0 < w && (w == l || w == l / 10 || w == l / 100 || w == l / 1000 || w == l / 10000)
}

// A label is 1 to 65,535.
#[tactic(auto, unfolding(text_xml_form::specs::Elements::label_right))]
fn label(w: usize) -> bool
    ensures { result ≡ label_right w }
{
    0 < w && w < WORD_LIMIT
}

// A byte goes on in the name of a start tag or short tag, or ends it.
#[tactic(auto, unfolding(text_xml_form::specs::Scan::goes_further))]
fn goes_on(v: usize, c: usize) -> bool
    requires { v < word_limit }
    ensures { result ≡ goes_further v c }
{
    if digit(c) {
        return label(further(v, c));
    }
    (c == 62 || c == 47) && 0 < v
}

// A byte goes on in the name of the end tag of a label, or ends it.
#[tactic(auto, unfolding(text_xml_form::specs::Scan::ends_on))]
fn ends_on(v: usize, l: usize, c: usize) -> bool
    requires { v < word_limit }
    ensures { result ≡ ends_on v l c }
{
    if digit(c) {
        return leads(further(v, c), l);
    }
    c == 62 && 0 < v && v == l
}

// A byte goes on, at this stage and number, with d open elements, the innermost of this label.
#[tactic(auto, unfolding(text_xml_form::specs::Scan::fits))]
pub(crate) fn fits(q: usize, v: usize, l: usize, d: usize, c: usize) -> bool
    requires { v < word_limit }
    ensures { result ≡ fitsAt q v l d c }
{
    if q == 2 {
        return goes_on(v, c);
    }
    if q == 5 {
        return ends_on(v, l, c);
    }
    if q == 0 {
        return c == 60;
    }
    if q == 3 {
        return c == 62;
    }
    if q == 4 {
        return c == 110;
    }
    if q == 1 {
        return c == 110 || (c == 47 && 0 < d);
    }
    q == 6 && c == 60 && 0 < d
}

// The stage behind a byte that goes on.
pub(crate) fn stage_on(q: usize, c: usize) -> usize
    ensures { result ≡ stage_on q c }
{
    if c == 62 {
        return 6;
    }
    if c == 60 {
        return 1;
    }
    if c == 47 {
        if q == 1 {
            return 4;
        }
        return 3;
    }
    if c != 110 {
        return q; // a digit
    }
    if q == 1 {
        return 2;
    }
    5
}

// The number behind it.
pub(crate) fn number_on(v: usize, c: usize) -> usize
    requires { v < word_limit }
    ensures { result ≡ number_on v c }
{
    if c == 110 {
        return 0;
    }
    if digit(c) {
        return further(v, c);
    }
    v
}

// How many elements are open behind it: not more than there are bytes.
#[tactic(auto, unfolding(text_xml_form::specs::Scan::depth_on))]
pub(crate) fn depth_on(s: &[u8], q: usize, c: usize, d: usize) -> usize
    requires { d < length s.now }
    ensures { result ≡ depth_on q c d }
{
    if c != 62 {
        return d;
    }
    if q == 2 {
        return d + 1;
    }
    if q == 5 {
        return d.saturating_sub(1);
    }
    d
}
