//! Texts that are cut, lines with their fields, numbers and times.
ghost use Rattle.std.specs.Prelude.{◌≡◌, ◌<◌};

use grid_model::Stamp;
use line_text::{
    BlockReader, Cut, Fields, FieldsFault, Fraction, LineBlock, LineCutter, LineSort, MOST_LINE,
    RowFields, cut_at, fields, is_skipped_line, next_line, put_decimal, put_fraction, put_stamp,
    read_decimal, read_stamp,
};
use std::alloc::{AllocError, Global};

// Appends the line of an answer and an LF; `!` stands for one that is too long.
fn put_line(text: &mut Vec<u8>, cutter: &LineCutter, cut: Cut) -> Result<(), AllocError>
    requires { cutter.now.last ≡ cut }
{
    match cut {
        Cut::More => return Ok(()),
        Cut::Line => text.extend_from_slice(cutter.line())?,
        Cut::TooLong => text.push(b'!')?,
    }
    text.push(b'\n')?;
    Ok(())
}

// The lines of a text, each with an LF behind it.
fn relined(alloc: Global, cutter: &mut LineCutter, text: &[u8]) -> Result<Vec<u8>, AllocError> {
    let mut relined = Vec::new(alloc);
    for byte in text {
        let cut = cutter.push(*byte);
        put_line(&mut relined, cutter, cut)?;
    }
    let cut = cutter.end();
    put_line(&mut relined, cutter, cut)?;
    Ok(relined)
}

// One text after another, by one cutter.
#[test]
fn cuts_texts_into_lines(rt: HostRuntime) -> Result<(), AllocError> {
    let mut cutter = LineCutter::new();
    for (text, lines) in [
        ("", ""),
        ("\n", "\n"),
        ("\n\n", "\n\n"),
        ("a", "a\n"),
        ("a\nb\n", "a\nb\n"),
        ("a\r\n\r\nb", "a\n\nb\n"),
        ("a\r\r\n", "a\r\n"),
        ("a\rb\n", "a\rb\n"),
        ("a\r", "a\r\n"),
        ("\r", "\r\n"),
    ] {
        let cut = relined(rt.alloc(), &mut cutter, text.as_bytes())?;
        assert!(rt; cut.as_slice() == lines.as_bytes(), "{text:?}");
    }
    Ok(())
}

// The last answer to a text of so many letters and this end.
fn last_answer(letters: usize, end: &str) -> Cut {
    let mut cutter = LineCutter::new();
    let mut last = Cut::More;
    for _ in 0..letters {
        last = cutter.push(b'x');
    }
    for byte in end.as_bytes() {
        last = cutter.push(*byte);
    }
    if last == Cut::More {
        last = cutter.end();
    }
    last
}

#[test]
fn tells_lines_that_are_too_long(rt: HostRuntime) {
    for (letters, end, answer) in [
        (MOST_LINE, "", Cut::Line),
        (MOST_LINE, "\n", Cut::Line),
        (MOST_LINE, "\r\n", Cut::Line),
        (MOST_LINE - 1, "\r\r\n", Cut::Line),
        (MOST_LINE - 1, "\r", Cut::Line),
        (MOST_LINE, "\r", Cut::TooLong),
        (MOST_LINE, "\r\r\n", Cut::TooLong),
        (MOST_LINE + 1, "", Cut::TooLong),
        (MOST_LINE + 1, "\n", Cut::TooLong),
        (MOST_LINE + 1, "\r\n", Cut::TooLong),
        (3 * MOST_LINE, "\r\n", Cut::TooLong),
        (3 * MOST_LINE, "\na", Cut::Line),
        (0, "", Cut::More),
    ] {
        let last = last_answer(letters, end);
        assert!(rt; last == answer, "{letters} letters and {end:?}");
    }
}

// Appends the fields of a row, each with a `|` behind it.
fn put_fields(text: &mut Vec<u8>, fields: RowFields<'_>) -> Result<(), AllocError> {
    for field in fields {
        text.extend_from_slice(field)?;
        text.push(b'|')?;
    }
    Ok(())
}

// Appends what is told of each line that is left, and an LF: its fields, or `#` where it is skipped,
// `!` where it is too long and `?` where it has no fields.
fn put_told(text: &mut Vec<u8>, lines: &mut BlockReader<'_>) -> Result<(), AllocError> {
    'lines: while let Some(sort) = lines.read_line()? {
        match sort {
            LineSort::Skipped => text.push(b'#')?,
            LineSort::TooLong => text.push(b'!')?,
            LineSort::NoFields => text.push(b'?')?,
            LineSort::Row => put_fields(text, RowFields::of(lines.row()))?,
        }
        text.push(b'\n')?;
    }
    Ok(())
}

// What is told of the lines of a text that comes in pieces of this size.
fn told_in_pieces(alloc: Global, text: &[u8], size: usize) -> Result<Vec<u8>, AllocError>
    requires { 0 < size }
{
    let mut cutter = LineCutter::new();
    let mut block = LineBlock::new(alloc);
    let mut told = Vec::new(alloc);
    for piece in text.chunks(size) {
        block.take_piece(&mut cutter, piece)?;
        put_told(&mut told, &mut block.reader(alloc))?;
        block.clear();
    }
    block.take_end(&mut cutter)?;
    put_told(&mut told, &mut block.reader(alloc))?;
    Ok(told)
}

// Lines of each sort, rows of different lengths among them, and a last one without an LF.
fn mixed_lines(alloc: Global) -> Result<Vec<u8>, AllocError> {
    let mut text = Vec::new(alloc);
    text.extend_from_slice("a,b\r\n\n# x\n\"q\"\n\u{feff}a\n,,c\n\r\r\n".as_bytes())?;
    text.extend_from_slice(&[b'x'; 513])?;
    text.extend_from_slice(b"\nd\n")?;
    text.extend_from_slice(&[b'y'; 512])?;
    text.extend_from_slice(b"\r\nlast,,")?;
    Ok(text)
}

// What is told of them.
fn told_of_mixed_lines(alloc: Global) -> Result<Vec<u8>, AllocError> {
    let mut told = Vec::new(alloc);
    told.extend_from_slice(b"a|b|\n#\n#\n?\n?\n||c|\n?\n!\nd|\n")?;
    told.extend_from_slice(&[b'y'; 512])?;
    told.extend_from_slice(b"|\nlast|||\n")?;
    Ok(told)
}

#[test]
fn tells_the_same_in_pieces(rt: HostRuntime) -> Result<(), AllocError> {
    let text = mixed_lines(rt.alloc())?;
    let expected = told_of_mixed_lines(rt.alloc())?;
    for size in [1, 2, 3, 5, 511, 512, 513, 514, 515, 4096] {
        assert!(rt; size > 0);
        let told = told_in_pieces(rt.alloc(), text.as_slice(), size)?;
        assert!(rt; told == expected, "pieces of {size}");
    }
    Ok(())
}

// How many bytes of so many lines of sixteen bytes a block leaves.
fn left_of(alloc: Global, lines: usize) -> Result<usize, AllocError> {
    let mut text = Vec::new(alloc);
    for _ in 0..lines {
        text.extend_from_slice(b"0123456789,1234\n")?;
    }
    let mut block = LineBlock::new(alloc);
    let behind = block.fill(text.as_slice())?;
    Ok(behind.len())
}

#[test]
fn fills_a_block_with_65536_bytes(rt: HostRuntime) -> Result<(), AllocError> {
    for (lines, left) in [(0, 0), (4_095, 0), (4_096, 0), (4_097, 16), (9_000, 78_464)] {
        assert_eq!(rt; left_of(rt.alloc(), lines)?, left, "{lines} lines");
    }
    Ok(())
}

// The fields of a line, as they are told, or `?`.
fn told_fields(alloc: Global, line: &[u8]) -> Result<Vec<u8>, AllocError> {
    let mut told = Vec::new(alloc);
    match fields(alloc, line) {
        Ok(row) => put_fields(&mut told, RowFields::of(&row))?,
        Err(FieldsFault::Bad) => told.push(b'?')?,
        Err(FieldsFault::Memory) => return Err(AllocError),
    }
    Ok(told)
}

#[test]
fn reads_the_fields_of_a_line(rt: HostRuntime) -> Result<(), AllocError> {
    for (line, told) in [
        ("a,,bc, d", "a||bc| d|"),
        ("#", "#|"),
        (",", "||"),
        ("", "?"),
        ("\u{feff}a,b", "?"),
        ("a,\"b\"", "?"),
        ("a,b\r", "?"),
        ("a\n,b", "?"),
    ] {
        let read = told_fields(rt.alloc(), line.as_bytes())?;
        assert!(rt; read.as_slice() == told.as_bytes(), "{line:?}");
    }
    Ok(())
}

#[test]
fn reads_each_number_in_one_spelling(rt: HostRuntime) {
    for (text, most, number) in [
        ("0", 0, Some(0)),
        ("70", 70, Some(70)),
        ("71", 70, None),
        ("18446744073709551615", u64::MAX, Some(u64::MAX)),
        ("18446744073709551616", u64::MAX, None),
        ("", 9, None),
        ("07", 9, None),
        ("00", 9, None),
        ("+7", 9, None),
        ("7 ", 9, None),
    ] {
        assert!(rt; read_decimal(text.as_bytes(), most) == number, "{text:?}");
    }
}

#[test]
fn prints_a_number(rt: HostRuntime) -> Result<(), AllocError> {
    let mut text = vec![in rt.alloc(); b'=']?;
    put_decimal(&mut text, 1_000_000_007)?;
    assert!(rt; text.as_slice() == b"=1000000007".as_slice());
    Ok(())
}

#[test]
fn cuts_off_lines_and_fields(rt: HostRuntime) {
    let (line, behind) = next_line(b"a,b\r\nc").expect(&rt, "a line");
    assert!(rt; line == b"a,b".as_slice() && behind == b"c".as_slice());
    let (front, behind) = cut_at(line, b',').expect(&rt, "a comma");
    assert!(rt; front == b"a".as_slice());
    let mut fields = Fields::of(behind);
    assert!(rt; fields.next() == Some(b"b".as_slice()) && fields.is_at_end());
}

#[test]
fn skips_comments(rt: HostRuntime) {
    let comment = [b'#'; 513];
    for (line, skipped) in [
        (b"".as_slice(), true),
        (b"# a", true),
        (b" # a", false),
        (&comment[..MOST_LINE], true),
        (&comment, false),
    ] {
        assert!(rt; is_skipped_line(line) == skipped);
    }
}

#[test]
fn reads_a_time(rt: HostRuntime) {
    for (text, second) in [
        ("2024-02-29T00:00:00Z", Some(1_709_164_800)),
        ("9999-12-31T23:59:59Z", Some(253_402_300_799)),
        ("2023-02-29T00:00:00Z", None),
        ("1969-12-31T23:59:59Z", None),
        ("2024-02-29T00:00:60Z", None),
        ("2024-02-29T00:00:00z", None),
        ("2024-02-29T00:00:00Z ", None),
        ("2024-2-29T00:00:00Z", None),
    ] {
        let read = read_stamp(text.as_bytes());
        assert!(rt; read.map(|at| at.0) == second, "{text:?}");
    }
}

#[test]
fn prints_a_time(rt: HostRuntime) {
    let text = put_stamp(Stamp(1_709_164_800));
    assert!(rt; text.as_slice() == b"2024-02-29T00:00:00Z".as_slice());
    let text = put_stamp(Stamp(253_402_300_799));
    assert!(rt; text.as_slice() == b"9999-12-31T23:59:59Z".as_slice());
}

#[test]
fn prints_a_fraction(rt: HostRuntime) -> Result<(), AllocError> {
    for (fraction, printed) in [
        (Fraction::new(37, 47), "37/47,0.7872"),
        (Fraction::new(60, 7), "60/7,8.5714"),
        (Fraction::new(301, 60), "301/60,5.0166"),
        (Fraction::new(0, 40), "0/1,0.0000"),
        (Fraction::new(90, 3), "30/1,30.0000"),
    ] {
        let text = put_fraction(rt.alloc(), fraction)?;
        assert!(rt; text.as_slice() == printed.as_bytes(), "{printed}");
    }
    Ok(())
}
