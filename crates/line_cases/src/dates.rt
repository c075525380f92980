// Cases of dates: the day number, or that there is no such day.
use crate::out;
use std::io;

fn dates(rt: &impl Print, list: &str) -> io::Result<()> {
    for date in list.split('|') {
        let day = calendar::day_in(date.as_bytes()).map(out::day_number);
        println!(rt; "date {date}: {}", out::number_or(day, "no date"))?;
    }
    Ok(())
}

pub fn run(rt: &impl Print) -> io::Result<()> {
    // The ends of the calendar and of its two centuries, and the leap days in it.
    dates(
        rt,
        "010170|123170|022970|022972|030172|022996|022999|123199|010100|022800|022900|030100|123100|\
        010101|022801|022901|030101|022904|030104|022968|123168|022969|123169",
    )?;
    // The last day of each month, and the one that it has not.
    dates(
        rt,
        "013100|013200|023000|033100|033200|043000|043100|043101|053100|053200|063000|063100|\
        073100|073200|083100|083200|093000|093100|103100|103200|113000|113100|123200",
    )?;
    // No month, no day, not six digits.
    dates(
        rt,
        "130101|003101|010001|000000|01010|0101000||0101 0| 10100|0A0100",
    )
}
