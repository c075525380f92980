// The value of a label, and the bytes of the record that it stands for.
ghost use Rattle.std.specs.Prelude.{◌≡◌, true, ◌+◌, ◌≤◌, ◌++◌, ◌≢◌, length};
ghost use Rattle.text.specs.Text.{blank, same_bytes};
ghost use Rattle.tag_rules.specs.Tags.{calendar_date, postal};
ghost use Rattle.tag_rules.specs.Forms.{spread, century, worded, filled, formed, fits, shaped, longest};
ghost use Rattle.tagged.specs.Rows.{number};
ghost use Rattle.tagged.specs.declared.form.Form.TheVariants.{Plain};

use crate::written::Written;
use layout::place;
use text::Class;

// How a value is written.
#[derive(Clone, Copy)]
pub enum Form {
    // The field without the spaces at its end.
    Plain,
    // Ten digits.
    Ten,
    // CCYY-MM-DD.
    CalendarDate,
    // NNNNN or NNNNN-NNNN.
    Postal,
}

// The longest value that is not plain has as many bytes.
const LONGEST: usize = 10;

// Where a value of CCYY-MM-DD has its bytes.
const YEAR_AT: usize = 2;

const MONTH_AT: usize = 5;

const DAY_AT: usize = 8;

impl Form {
    // The bytes that a value stands for, in their place in the record, which is blank.
    #[tactic(auto, using(text::proofs::TrimLaws::blank_is), unfolding(tag_rules::specs::Forms::spread))]
    pub fn spread(self, v: &[u8], span: &mut [u8])
        requires { blank span.old ≡ true }
        ensures { span.new ≡ spread (number self) (length span.old) v.now }
    {
        match self {
            Form::CalendarDate => {
                let turned = [
                    text::byte_of(v, MONTH_AT),
                    text::byte_of(v, MONTH_AT + 1),
                    text::byte_of(v, DAY_AT),
                    text::byte_of(v, DAY_AT + 1),
                    text::byte_of(v, YEAR_AT),
                    text::byte_of(v, YEAR_AT + 1),
                ];
                text::put(span, 0, &turned);
            }
            Form::Postal => {
                // Zip, and Zip+4 behind it; between them the value has one byte more.
                let zip_4 = text::part_of(v, place::ZIP_SIZE + 1, place::ZIP_4_SIZE);
                text::put(&mut span[..], 0, text::part_of(v, 0, place::ZIP_SIZE));
                text::put(span, place::ZIP_SIZE, zip_4);
            }
            Form::Plain | Form::Ten => text::put(span, 0, v),
        }
    }

    // Whether bytes of the record for a form that is not plain are filled with digits: five and none, or five and four, of Zip with
    // Zip+4.
    #[tactic(auto, unfolding(tag_rules::specs::Forms::filled))]
    fn is_filled(self, f: &[u8]) -> bool
        ensures { result ≡ filled (number self) f.now }
    {
        match self {
            Form::Postal => {
                let four = text::part_of(f, place::ZIP_SIZE, place::ZIP_4_SIZE);
                text::all_in(text::part_of(f, 0, place::ZIP_SIZE), Class::Digit)
                    & (text::is_blank(four) | text::all_in(four, Class::Digit))
            }
            _ => text::all_in(f, Class::Digit),
        }
    }

    // Whether bytes of the record have a tagged form.
    #[tactic(auto, unfolding(tag_rules::specs::Forms::formed))]
    pub fn is_formed(self, f: &[u8]) -> bool
        ensures { result ≡ formed (number self) f.now }
    {
        match self {
            Form::Plain => true,
            _ => text::is_blank(f) | self.is_filled(f),
        }
    }

    // Writes the value for bytes of the record.
    #[tactic(auto, using(text::proofs::TrimLaws::trim_length), unfolding(tag_rules::specs::Forms::worded))]
    pub fn write<const N: usize>(self, f: &[u8], out: &mut Written<N>)
        requires shaped { shaped (number self) (length f.now) ≡ true }
        requires room { length out.old + longest (number self) (length f.now) ≤ N }
        ensures { out.new ≡ out.old ++ worded (number self) f.now }
    {
        match self {
            Form::CalendarDate => out.append(&date_of(f)),
            Form::Postal => write_postal(f, out),
            Form::Ten => out.append(f),
            Form::Plain => out.append(text::trimmed(f)),
        }
    }

    // Whether a value that is not plain is what is written for the bytes that it stands for.
    #[tactic(auto, unfolding(tag_rules::specs::Forms::worded))]
    fn is_worded(self, v: &[u8], span: &[u8]) -> bool
        requires shaped { shaped (number self) (length span.now) ≡ true }
        requires not_plain { self ≢ Plain }
        ensures { result ≡ same_bytes (worded (number self) span.now) v.now }
    {
        match self {
            Form::CalendarDate => text::same(&date_of(span), v),
            Form::Postal => is_postal(v, span),
            _ => text::same(span, v),
        }
    }

    // Whether a value has a Version 2 form, given the bytes that it stands for: a plain one is no longer than its field, any other
    // stands for digits and is what is written for them.
    #[tactic(auto, unfolding(tag_rules::specs::Forms::fits))]
    pub fn does_fit(self, v: &[u8], span: &[u8]) -> bool
        requires shaped { shaped (number self) (length span.now) ≡ true }
        requires spread { span.now ≡ spread (number self) (length span.now) v.now }
        ensures { result ≡ fits (number self) (length span.now) v.now }
    {
        match self {
            Form::Plain => v.len() <= span.len(),
            _ => self.is_filled(span) & self.is_worded(v, span),
        }
    }
}

// The first two digits of a year, by the first of its last two.
fn century(tens: u8) -> [u8; 2]
    ensures { result ≡ century tens }
{
    if b'7' <= tens { *b"19" } else { *b"20" }
}

// CCYY-MM-DD of MMDDYY.
fn date_of(f: &[u8]) -> [u8; 10]
    requires { length f.now ≡ 6 }
    ensures { result ≡ worded calendar_date f.now }
{
    let cc = century(f[4]);
    [cc[0], cc[1], f[4], f[5], b'-', f[0], f[1], b'-', f[2], f[3]]
}

// NNNNN or NNNNN-NNNN.
#[tactic(auto, unfolding(tag_rules::specs::Forms::worded))]
fn write_postal<const N: usize>(f: &[u8], out: &mut Written<N>)
    requires long { length f.now ≡ 9 }
    requires room { length out.old + 10 ≤ N }
    ensures { out.new ≡ out.old ++ worded postal f.now }
{
    let four = &f[place::ZIP_SIZE..place::ZIP_BOTH_SIZE];
    out.append(&f[..place::ZIP_SIZE]);
    if !text::is_blank(four) {
        out.append(b"-");
        out.append(four);
    }
}

// NNNNN or NNNNN-NNNN is what is written for the bytes.
fn is_postal(v: &[u8], span: &[u8]) -> bool
    requires { length span.now ≡ 9 }
    ensures { result ≡ same_bytes (worded postal span.now) v.now }
{
    let mut value: Written<LONGEST> = Written::new();
    write_postal(span, &mut value);
    text::same(value.as_slice(), v)
}
