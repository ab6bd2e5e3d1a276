// Edits of a sheet's text.
use arrayvec::ArrayVec;
use script::cursor::Cursor;
use script::text::{Text, expand};
use std::io::Write;

// Makes `text` the sheet with an edit, or answers none where what is to be replaced does not stand in it: `OLD>NEW` puts NEW for the
// first OLD, and after `OLD|NEW` the text ends there.
pub(crate) fn edit(edit: &[u8], sheet: &[u8], text: &mut Text) -> Option<()> {
    let sign = if edit.contains(&b'>') { b'>' } else { b'|' };
    let mut words = Cursor::new(edit);
    let mut old = ArrayVec::<u8, 4_096>::new();
    expand(words.word(sign), &mut old);
    let (front, back) = cut(sheet, &old)?;
    text.clear();
    append(text, front);
    expand(words.rest, text);
    if sign == b'>' || !edit.contains(&b'|') {
        append(text, back);
    }
    Some(())
}

// What stands before the first `word` of a text, and behind it.
fn cut<'a>(text: &'a [u8], word: &[u8]) -> Option<(&'a [u8], &'a [u8])> {
    if word.is_empty() {
        return Some((&[], text));
    }
    let place = text.windows(word.len()).position(|window| window == word)?;
    Some((&text[..place], &text[place + word.len()..]))
}

// As many bytes as there is room for.
fn append(text: &mut Text, bytes: &[u8]) {
    let _ = text.write(bytes);
}
