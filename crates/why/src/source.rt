//! What stands at the places of a source.

use place::Place;

// How long the text of a variable or a component may be that is told.
const LONGEST: usize = 60;

/// The variable or the component that is named at a place of a text of these lines, as far as it stands on its line;
/// where it takes long its first bytes.
pub(crate) fn access_at<'s>(lines: &[&'s [u8]], place: Place) -> &'s [u8] {
    let line = lines.get((place.line as usize).saturating_sub(1));
    let at = (place.column as usize).saturating_sub(1);
    let text = line.and_then(|line| line.get(at..)).unwrap_or(&[]);
    let nexts = text.iter().skip(1).chain([b' '].iter());
    let pairs = text.iter().zip(nexts).take(LONGEST);
    let end = pairs.scan(0, goes_on).count();
    text.get(..end).unwrap_or(&[])
}

// Whether a byte, before another one, belongs to an access, behind others in which so many brackets are open.
fn goes_on(depth: &mut u8, (byte, next): (&u8, &u8)) -> Option<()> {
    match *byte {
        b'[' => *depth = depth.saturating_add(1),
        b']' => *depth = depth.checked_sub(1)?,
        b'.' if *next == b'.' && *depth == 0 => return None,
        b'.' | b'_' => {}
        other if other.is_ascii_alphanumeric() => {}
        other if *depth > 0 && (32..127).contains(&other) => {}
        _ => return None,
    }
    Some(())
}
