// A text held to the lines that its case has for it.
use crate::text::{Line, Lines};

// The lines from the first on, to the next case: what follows `>` on one is the text's next line. Of records added by
// `again` the lines are not looked at. The error is the first line of the text that is not as it must be.
pub(crate) fn hold<'a>(lines: Lines<'_>, text: &'a [u8]) -> Result<(), Line<'a>> {
    let mut given = Lines::of(text);
    for line in lines.take_while(|line| !line.begins_case()) {
        if let Some((records, times)) = line.again() {
            pass(&mut given, records, times);
        }
        if let Some(wanted) = line.wanted() {
            hold_next(&mut given, Some(wanted))?;
        }
    }
    hold_next(&mut given, None)
}

fn pass(given: &mut Lines<'_>, records: u16, times: u16) {
    for _ in 0..times {
        for _ in 0..records {
            if given.next().is_none() {
                return;
            }
        }
    }
}

// The text's next line must be this one, or none. Behind its last line the one that differs is empty.
fn hold_next<'a>(given: &mut Lines<'a>, wanted: Option<&[u8]>) -> Result<(), Line<'a>> {
    let number = given.number;
    let next = given.next();
    if next.map(|line| line.text) == wanted {
        return Ok(());
    }
    Err(next.unwrap_or(Line { number, text: &[] }))
}
