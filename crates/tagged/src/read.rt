// Reading a tagged text into a Version 2 record. The walk over its pairs never stops early: it notes what is wrong, and afterwards the
// lowest number decides.
ghost use Rattle.std.specs.Prelude.{◌≡◌, [], ◌∷◌, true, false, length, IfErr};
ghost use Rattle.rules.specs.Walks.{first};
ghost use Rattle.rules.specs.Refusing.{number_told, refusal_position};
ghost use Rattle.text.specs.Text.{blank};
ghost use Rattle.tag_rules.specs.Forms.{spread, fits, shaped};
ghost use Rattle.tag_rules.specs.Reading.{is_framed, pairs_of, tag_of, Draft, pair_taken, all_taken, blank_draft, draft_of, ReadsText};
ghost use Rattle.tagged.specs.Rows.{number};
ghost use Rattle.tagged.specs.Walking.{Clear};

use crate::form::Form;
use crate::table;
use crate::table::LETTERS;
use layout::place;
use rules::refusing::{self, Refused};
use std::marker::Model;
use tag_rules::{Notes, Tagged};
use text::Class;

// `DAT` before the first `|`, and a newline as the last byte.
#[tactic(auto, unfolding(tag_rules::specs::Reading::is_framed))]
fn is_framed(s: &[u8]) -> bool
    ensures { result ≡ is_framed s.now }
{
    let n = s.len();
    if n < 4 {
        return false;
    }
    (s[n - 1] == b'\n') & (text::same(&s[0..3], b"DAT") & ((n == 4) | (s[3] == b'|')))
}

// The row of a pair's label, if the label is taken and not cut short. Most texts have their labels in the exhibit's order, so the row
// `next` is looked at first; no two rows have the same letters, so what is found is the same.
fn find_tag(pair: &[u8], next: usize) -> Option<usize>
    ensures { result ≡ tag_of pair.now }
{
    if pair.len() < LETTERS {
        return None;
    }
    let label = [b'|', pair[0], pair[1], pair[2]];
    if next < table::COUNT && table::row_at(next).has(label) {
        return Some(next);
    }
    table::find(label)
}

// A value in its place, which is cleared first where one stands there already; whether it fits.
fn take_value(form: Form, again: bool, v: &[u8], span: &mut [u8]) -> bool
    requires shaped { shaped (number form) (length span.old) ≡ true }
    requires blank { again ≡ false → blank span.old ≡ true }
    ensures fits { result ≡ fits (number form) (length span.old) v.now }
    ensures spread { span.new ≡ spread (number form) (length span.old) v.now }
{
    if again {
        text::fill(&mut span[..], b' ');
    }
    form.spread(v, &mut span[..]);
    form.does_fit(v, span)
}

// The record that the pairs of a text make: what was noted so far, which labels were seen (1 or 0, as the
// definition `Draft` has it), and its bytes.
#[derive(Drop)]
struct Walk {
    notes: Notes,
    seen: [u8; table::COUNT],
    line: [u8; place::RECORD_SIZE],
}

// Where a label was not seen yet, its place is blank.
impl Model for Walk {
    ghost Value = { Draft };

    ghost view = { λ w. record { notes = w.notes; seen = w.seen; line = w.line } };

    ghost invariant = { λ w. Clear w.seen w.line };
}

impl Walk {
    // One pair: what is noted of it, and its value in its place.
    fn take_pair(&mut self, tag: Option<usize>, pair: &[u8])
        requires { tag ≡ tag_of pair.now }
        ensures { self.new ≡ pair_taken pair.now self.old }
    {
        let Some(k) = tag else {
            self.notes = Notes {
                unknown: true,
                ..self.notes
            };
            return;
        };
        let row = table::row_at(k);
        let at = row.at;
        let end = at + row.size;
        let value = text::part_of(pair, LETTERS, pair.len());
        let again = self.seen[k] == 1;
        let fit = take_value(row.form, again, value, &mut self.line[at..end]);
        self.seen[k] = 1;
        self.notes = Notes {
            twice: self.notes.twice | again,
            unfit: self.notes.unfit | !fit,
            ..self.notes
        };
    }

    // All pairs of a body, which begins with `|`.
    fn take_pairs(&mut self, body: &[u8])
        ensures { self.new ≡ all_taken (pairs_of body.now) self.old }
    {
        let mut next = 0;
        if let Some((_, pairs)) = body.split_first() {
            for pair in pairs.split(|b| *b == b'|') {
                let tag = find_tag(pair, next);
                self.take_pair(tag, pair);
                if let Some(k) = tag {
                    next = k + 1;
                }
            }
        }
    }

    // The pairs of a text, where nothing was taken before.
    #[tactic(auto, unfolding(tag_rules::specs::Reading::is_framed, tag_rules::specs::Reading::draft_of, tag_rules::specs::Reading::body_of))]
    fn take_text(&mut self, s: &[u8])
        requires framed { is_framed s.now ≡ true }
        requires blank { self.old ≡ blank_draft }
        ensures { self.new ≡ draft_of s.now }
    {
        self.take_pairs(&s[3..s.len() - 1]);
    }
}

// 34, 35 and 36, over the whole text.
#[tactic(auto, unfolding(rules::specs::Walks::first))]
fn check_notes(notes: Notes) -> Result<(), Refused>
    ensures number { number_told result ≡ first ((notes.unknown, 34) ∷ (notes.twice, 35) ∷ (notes.unfit, 36) ∷ []) }
    ensures position { IfErr result (λ why. refusal_position why ≡ 0) }
{
    if notes.unknown {
        return Err(Refused::Label);
    }
    if notes.twice {
        return Err(Refused::LabelTwice);
    }
    if notes.unfit {
        return Err(Refused::Value);
    }
    Ok(())
}

// Reads a tagged text. Refused by 33, what is noted (34 to 36), 9 and 25, first hit decides, before a byte is written.
#[tactic(auto, using(crate::proofs::TextLaws::fault_fits), unfolding(tag_rules::specs::Reading::text_read, tag_rules::specs::Reading::read_refusal, rules::specs::Walks::first))]
pub fn read(s: &[u8], out: &mut [u8]) -> Tagged
    ensures { ReadsText s.now out.old result out.new }
{
    if !is_framed(s) {
        return crate::refused(Refused::NoText);
    }
    let mut line = [b' '; place::RECORD_SIZE];
    line[place::RECORD_STAR_AT] = b'*';
    let mut walk = Walk {
        notes: Notes::default(),
        seen: [0; table::COUNT],
        line,
    };
    walk.take_text(s);
    if let Err(why) = check_notes(walk.notes) {
        return crate::refused(why);
    }
    let fault = faults::record_fault(&walk.line);
    if fault != 0 {
        return crate::refused(Refused::FieldRule {
            place: 0,
            position: fault as u32,
        });
    }
    if out.len() < place::RECORD_SIZE {
        return crate::refused(Refused::OutputShort);
    }
    out[..place::RECORD_SIZE].copy_from_slice(&walk.line);
    Tagged {
        refusal: refusing::NONE,
        position: 0,
        bytes: place::RECORD_SIZE as u32,
    }
}
