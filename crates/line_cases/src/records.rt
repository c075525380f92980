// Cases of the data record: the position of its first fault, or 0. What the good record holds is not run again.
use crate::cases;
use crate::made::{Change, Kind};
use layout::table;
use std::io;

// 003's type letters are no rule, and lower case is good in text.
fn fields(rt: &impl Print) -> io::Result<()> {
    cases::fields(
        rt,
        Kind::Data,
        "Function=C|D|U|M|X|i;NPA=5A3|50;Calling Number=555A100|555010;\
        House Number=12345678|123456789|1234567890|00000001|000000001|1 1| 1|12A|-1;House Suffix;\
        Prefix Directional=N|S|E|W|NE|NW|SE|SW|EN|NS| N|n;Street Name=Main;Street Suffix;\
        Post Directional=SW|EN| N;Community=Salem;State=Or|O1|O| R;Location;Customer Name=a name;\
        Class=9|A;Type=1|2|3|4|5|6|A;Exchange;ESN=083|12345|8 3|8A| 83;\
        Main NPA;Main Number=ABC;Order;Date=123199|022901|131300|22900|0229 0;County;\
        Company ID=ABC|12345|AB1C2|A B|ab|aB|A-B| AB;Source=C|c|D;Zip;Zip+4;General Use;\
        Customer Code;Comments;X;Y;Z;Cell;Sector;TAR;Reserved;star=x",
    )
}

// Every byte is 20 to 7E hex.
fn printable(rt: &impl Print) -> io::Result<()> {
    for b in [0, 31, 32, 126, 127, 255] {
        cases::byte(rt, Kind::Data, "Comments", table::COMMENTS, 2, b)?;
    }
    Ok(())
}

// A change of a record with this code.
fn coded(rt: &impl Print, code: &str, change: Change) -> io::Result<()> {
    let function = Change::new("Function", table::FUNCTION, code);
    cases::two(rt, Kind::Data, function, change)
}

// Five fields are blank only in D and U, and two in no code. Blank in I comes with the fields.
fn blanks(rt: &impl Print, code: &str) -> io::Result<()> {
    for (name, field) in [
        ("Street Name", table::STREET_NAME),
        ("Community", table::COMMUNITY),
        ("State", table::STATE),
        ("Class", table::CLASS),
        ("Type", table::TYPE),
        ("Date", table::DATE),
        ("Company ID", table::COMPANY_ID),
    ] {
        coded(rt, code, Change::new(name, field, ""))?;
    }
    Ok(())
}

// In D and U those five are blank or fully good.
fn blank_or_good(rt: &impl Print) -> io::Result<()> {
    coded(
        rt,
        "D",
        Change::new("Street Name", table::STREET_NAME, " A"),
    )?;
    coded(rt, "U", Change::new("Community", table::COMMUNITY, " A"))?;
    coded(rt, "D", Change::new("State", table::STATE, "O"))?;
    coded(rt, "U", Change::new("Class", table::CLASS, "A"))?;
    coded(rt, "D", Change::new("Type", table::TYPE, "6"))
}

// Of two faults the first by position counts.
fn first_of_two(rt: &impl Print) -> io::Result<()> {
    let state = Change::new("State", table::STATE, "Or");
    let house = Change::new("House Number", table::HOUSE_NUMBER, " 1");
    let class = Change::new("Class", table::CLASS, "A");
    let record_type = Change::new("Type", table::TYPE, "6");
    coded(rt, "X", Change::new("star", table::RECORD_STAR, "x"))?;
    cases::two(rt, Kind::Data, state, house)?;
    cases::two(rt, Kind::Data, class, record_type)
}

// A field that is not whole is at fault.
fn shorts(rt: &impl Print) -> io::Result<()> {
    for n in [511, 355, 20, 0] {
        cases::short(rt, Kind::Data, n)?;
    }
    Ok(())
}

pub fn run(rt: &impl Print) -> io::Result<()> {
    cases::sample(rt, Kind::Data)?;
    fields(rt)?;
    printable(rt)?;
    for code in ["C", "M", "D", "U"] {
        blanks(rt, code)?;
    }
    blank_or_good(rt)?;
    first_of_two(rt)?;
    shorts(rt)
}
