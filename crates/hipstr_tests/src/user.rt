//! Code of a user who names `hipstr` alone: loops over walks, functions of a pattern and over a closure, with clauses that cite what a call
//! is said to give, a struct that keeps a walk, and records that are cut field by field. A function that is generic in the backend is
//! proved once for all, and takes longer than one that names `Rc`: most of these do.
ghost use Rattle.std.specs.Prelude.{◌≡◌, ◌==◌, ◌++◌, ℕ, IfOk, IfSome, OnErr, OnOk, codes, length};
ghost use Rattle.std.specs.Char.{IsScalar, is_ascii_digit};
ghost use Rattle.std.specs.Fmt.{decimal};
ghost use Rattle.hipstr.specs.Answers.{answer_at};
ghost use Rattle.hipstr.specs.Bytes.{byte_ends};
ghost use Rattle.hipstr.specs.Characters.{char_ends};
ghost use Rattle.hipstr.specs.Piece.{AreParts};
ghost use Rattle.hipstr.specs.Pieces.{split};
ghost use Rattle.hipstr.specs.Trimmed.{OnceAnswers};
ghost use Rattle.hipstr.specs.Trims.{split_once};

use hipstr::bytes::ByteCuts;
use hipstr::laws::{
    split_once_parts_at_the_first, strip_prefix_leaves_the_rest, strip_suffix_leaves_the_front,
};
use hipstr::pattern::{CharPred, Chosen, Pattern, Split, choose_by};
use hipstr::string::{HipStr, IterWrapper, TextCuts, Writer};
use hipstr::{Backend, LocalHipByt, LocalHipStr, Rc, Unique};
use std::alloc::{AllocError, Global};

/// The parts of a text between the occurrences of a pattern.
fn parts<'b, B: Backend, P: Pattern>(
    alloc: Global,
    text: &HipStr<'b, B>,
    pattern: P,
) -> Result<Vec<HipStr<'b, B>>, AllocError>
    requires { P.can_search pattern }
    ensures { IfOk result
        (λ parts. AreParts text.now
        (split (P.ends pattern text.now.items) (length text.now.items)) parts.items) }
{
    text.split(alloc, pattern).collect()
}

/// The fields of a line.
fn fields<'b, B: Backend>(
    alloc: Global,
    line: &HipStr<'b, B>,
) -> Result<Vec<HipStr<'b, B>>, AllocError>
    ensures { IfOk result
        (λ fields. AreParts line.now
        (split (char_ends (λ c. c == 44) line.now.items) (length line.now.items)) fields.items) }
{
    parts(alloc, line, ',')
}

/// That the digits pass.
fn chosen_digits() -> Chosen
    ensures { (c : ℕ) → IsScalar c → answer_at result.answers c ≡ is_ascii_digit c }
{
    choose_by(&())
}

/// The parts of a text between its digits.
fn between_digits<'b, B: Backend>(
    alloc: Global,
    text: &HipStr<'b, B>,
) -> Result<Vec<HipStr<'b, B>>, AllocError> {
    let digits = CharPred::with(|c| c.is_ascii_digit(), chosen_digits());
    parts(alloc, text, digits)
}

/// The number of fields of a line.
fn count_fields<'b, B: Backend>(alloc: Global, line: &HipStr<'b, B>) -> Result<usize, AllocError>
    ensures { IfOk result
        (λ count. count
        ≡ length (split (char_ends (λ c. c == 44) line.now.items) (length line.now.items))) }
{
    let fields = line.split(alloc, ',').collect()?;
    Ok(fields.len())
}

/// The length of the longest field of a line.
fn longest_field<'b, B: Backend>(alloc: Global, line: &HipStr<'b, B>) -> Result<usize, AllocError> {
    let mut longest = 0;
    for field in line.split(alloc, ',') {
        longest = longest.max(field?.len());
    }
    Ok(longest)
}

/// The length of the longest word of a text, by its lines.
fn longest_word(alloc: Global, text: &LocalHipStr<'_>) -> Result<usize, AllocError> {
    let mut longest = 0;
    for line in text.lines(alloc) {
        let line = line?;
        for word in line.split_whitespace(alloc) {
            longest = longest.max(word?.len());
        }
    }
    Ok(longest)
}

/// Where the commas of a line are.
fn commas(alloc: Global, line: &LocalHipStr<'_>) -> Result<Vec<usize>, AllocError> {
    let mut places = Vec::new(alloc);
    for (place, _comma) in line.match_indices(alloc, ',') {
        places.push(place)?;
    }
    Ok(places)
}

/// The last field of a line that isn't empty.
fn last_filled<'b>(
    alloc: Global,
    line: &LocalHipStr<'b>,
) -> Result<Option<LocalHipStr<'b>>, AllocError> {
    for field in line.split(alloc, ',').rev() {
        let field = field?;
        if !field.is_empty() {
            return Ok(Some(field));
        }
    }
    Ok(None)
}

/// The length of the longest part of a text between its digits.
fn longest_between_digits(alloc: Global, text: &LocalHipStr<'_>) -> Result<usize, AllocError> {
    let digits = CharPred::with(|c| c.is_ascii_digit(), chosen_digits());
    let mut longest = 0;
    for (_, part) in text.pieces_at(alloc, Split::new(text.as_str(), digits)) {
        longest = longest.max(part?.len());
    }
    Ok(longest)
}

/// The fields of a line that are left, and how many were drawn.
#[derive(Drop)]
struct Reader<'h, 'b, B: Backend> {
    fields: IterWrapper<'h, 'b, B, Split<'h, char>>,
    drawn: usize,
}

impl<'h, 'b, B: Backend> Reader<'h, 'b, B> {
    /// The length of the next field, if there is one and memory for it.
    fn next_len(&mut self) -> Option<usize> {
        let field = self.fields.next()?.ok()?;
        self.drawn = self.drawn.saturating_add(1);
        Some(field.len())
    }
}

/// Why a line is no record.
#[derive(Clone, Copy, Debug, PartialEq, Eq)]
enum BadLine {
    /// The field with this number, counted from 1, ends nowhere.
    Ends(usize),
    /// Memory ran out.
    Memory,
}

impl From<AllocError> for BadLine {
    ghost use Rattle.std.specs.Prelude.{◌≡◌};
    ghost use Rattle.hipstr_tests.specs.declared.user.BadLine.TheVariants.{Memory};

    ghost from_gives = { λ _ fault. fault ≡ Memory };

    fn from(_refused: AllocError) -> BadLine {
        BadLine::Memory
    }
}

/// A line of a log.
#[derive(Drop)]
struct LogRecord<'b> {
    host: LocalHipStr<'b>,
    user: LocalHipStr<'b>,
    day: LocalHipStr<'b>,
    path: LocalHipStr<'b>,
    status: LocalHipStr<'b>,
    size: LocalHipStr<'b>,
}

/// The record of a line, whose fields one space parts.
fn read_record<'b>(alloc: Global, line: &LocalHipStr<'b>) -> Result<LogRecord<'b>, BadLine> {
    let (host, rest) = line.split_once(alloc, ' ')?.ok_or(BadLine::Ends(1))?;
    let (user, rest) = rest.split_once(alloc, ' ')?.ok_or(BadLine::Ends(2))?;
    let (day, rest) = rest.split_once(alloc, ' ')?.ok_or(BadLine::Ends(3))?;
    let (path, rest) = rest.split_once(alloc, ' ')?.ok_or(BadLine::Ends(4))?;
    let (status, size) = rest.split_once(alloc, ' ')?.ok_or(BadLine::Ends(5))?;
    Ok(LogRecord {
        host,
        user,
        day,
        path,
        status,
        size,
    })
}

/// What stands between two quotes, if that is the whole field.
fn unquoted<'b>(
    alloc: Global,
    field: &LocalHipStr<'b>,
) -> Result<Option<LocalHipStr<'b>>, AllocError>
    ensures { IfOk result (λ found. IfSome found
        (λ inner. field.now.items ≡ codes "\"" ++ (inner.items ++ codes "\""))) }
{
    let Some(rest) = field.strip_prefix(alloc, "\"")? else {
        return Ok(None);
    };
    strip_prefix_leaves_the_rest(field.as_str(), "\"");
    let inner = rest.strip_suffix(alloc, "\"")?;
    strip_suffix_leaves_the_front(rest.as_str(), "\"");
    Ok(inner)
}

/// A key and its value, if a `=` stands between them.
fn key_and_value<'b>(
    alloc: Global,
    line: &LocalHipStr<'b>,
) -> Result<Option<(LocalHipStr<'b>, LocalHipStr<'b>)>, AllocError>
    ensures { IfOk result (λ found. IfSome found
        (λ parts. line.now.items ≡ parts.0.items ++ (codes "=" ++ parts.1.items))) }
{
    let parts = line.split_once(alloc, "=")?;
    split_once_parts_at_the_first(line.as_str(), "=");
    Ok(parts)
}

/// Adds a line of a report: a name, and how often it was counted.
fn report_count<'b, B: Backend>(
    alloc: Global,
    report: &mut HipStr<'b, B>,
    name: &str,
    count: u32,
) -> Result<(), AllocError>
    ensures line { OnOk result (report.new.items
        ≡ report.old.items ++ (name.now ++ (codes ": " ++ (decimal count ++ codes "\n")))) }
    ensures err { OnErr result (report.new ≡ report.old) }
{
    let mut out = Writer {
        text: report,
        alloc,
    };
    writeln!(out, "{name}: {count}")
}

/// The line of a name's count.
fn count_line(alloc: Global, name: &str, count: u32) -> Result<LocalHipStr<'static>, AllocError>
    ensures { IfOk result
        (λ line. line.items ≡ name.now ++ (codes ": " ++ decimal count)) }
{
    let mut line = LocalHipStr::new();
    let mut out = line.writer(alloc);
    write!(out, "{name}: {count}")?;
    Ok(line)
}

/// Whether counts are reported.
fn reports(alloc: Global) -> Result<bool, AllocError> {
    let mut report = LocalHipStr::borrowed("counts\n");
    report_count(alloc, &mut report, "a", 4)?;
    report_count(alloc, &mut report, "é", 15)?;
    let line = count_line(alloc, "a", 4)?;
    Ok(report.str_eq("counts\na: 4\né: 15\n") & line.str_eq("a: 4"))
}

/// The number of lines of a log that end with this status. The lines needn't be UTF-8.
fn lines_with_status(
    alloc: Global,
    log: &LocalHipByt<'_>,
    status: &[u8],
) -> Result<usize, AllocError> {
    let mut count = 0usize;
    for line in log.lines(alloc) {
        let line = line?.trim_ascii(alloc)?;
        if let Some((_front, last)) = line.rsplit_once(alloc, b' ')? {
            if last.eq_slice(status) {
                count = count.saturating_add(1);
            }
        }
    }
    Ok(count)
}

/// A key and its value in bytes, if a `=` stands between them.
fn key_and_value_bytes<'b>(
    alloc: Global,
    line: &LocalHipByt<'b>,
) -> Result<Option<(LocalHipByt<'b>, LocalHipByt<'b>)>, AllocError>
    ensures { OnceAnswers (λ part. part) split_once (byte_ends (λ b. b == 61)) line.now result }
{
    line.split_once(alloc, b'=')
}

/// Whether the texts are these.
fn are<B: Backend>(texts: &Result<Vec<HipStr<'_, B>>, AllocError>, expected: &[&str]) -> bool {
    let Ok(texts) = texts else {
        return false;
    };
    if texts.len() != expected.len() {
        return false;
    }
    for i in 0..texts.len() {
        if texts[i].as_str() != expected[i] {
            return false;
        }
    }
    true
}

/// Whether a reader gives the first field and counts it.
fn reads_one<B: Backend>(alloc: Global, line: &HipStr<'_, B>) -> bool {
    let mut reader = Reader {
        fields: line.split(alloc, ','),
        drawn: 0,
    };
    reader.next_len() == Some(2) && reader.drawn == 1
}

fn reads<B: Backend>(alloc: Global) -> bool {
    let line = HipStr::<B>::borrowed("ab,,c1d");
    reads_one(alloc, &line)
        & are(&fields(alloc, &line), &["ab", "", "c1d"])
        & are(&between_digits(alloc, &line), &["ab,,c", "d"])
        & are(&parts(alloc, &line, ",,"), &["ab", "c1d"])
}

/// Whether loops over walks answer as they should.
fn goes_over(alloc: Global) -> Result<bool, AllocError> {
    let line = LocalHipStr::borrowed("ab,,c1d,");
    let text = LocalHipStr::borrowed("a bcd\n\nefg hijk\n");
    let places = commas(alloc, &line)?;
    let lengths = (
        count_fields(alloc, &line)?,
        longest_field(alloc, &line)?,
        longest_word(alloc, &text)?,
        longest_between_digits(alloc, &line)?,
    );
    Ok(
        (lengths == (4, 3, 4, 5))
            & (places.as_slice() == [2, 3, 7].as_slice())
            & is_text(last_filled(alloc, &line)?, "c1d"),
    )
}

/// Whether this is the text.
fn is_text(text: Option<LocalHipStr<'_>>, expected: &str) -> bool {
    match text {
        Some(text) => text.str_eq(expected),
        None => false,
    }
}

/// Whether a line is this record.
fn is_record(record: &LogRecord<'_>, expected: &[&str; 6]) -> bool {
    record.host.str_eq(expected[0])
        & record.user.str_eq(expected[1])
        & record.day.str_eq(expected[2])
        & record.path.str_eq(expected[3])
        & record.status.str_eq(expected[4])
        & record.size.str_eq(expected[5])
}

/// Whether lines are read as records, or told by the field that lacks.
fn reads_records(alloc: Global) -> bool {
    let line = LocalHipStr::borrowed("10.0.0.1 - 1/Dec \"/a b\" 200");
    let short = LocalHipStr::borrowed("10.0.0.1 - 1/Dec");
    let is_read = match read_record(alloc, &line) {
        Ok(record) => is_record(&record, &["10.0.0.1", "-", "1/Dec", "\"/a", "b\"", "200"]),
        Err(_) => false,
    };
    let is_told = match read_record(alloc, &short) {
        Ok(_) => false,
        Err(bad) => bad == BadLine::Ends(3),
    };
    is_read & is_told
}

/// Whether quotes are taken off, and keys parted from their values.
fn takes_apart(alloc: Global) -> Result<bool, AllocError> {
    let quoted = LocalHipStr::borrowed("\"a=b\"");
    let half = LocalHipStr::borrowed("\"a=b");
    let pair = match key_and_value(alloc, &half)? {
        Some((key, value)) => key.str_eq("\"a") & value.str_eq("b"),
        None => false,
    };
    Ok(is_text(unquoted(alloc, &quoted)?, "a=b") & unquoted(alloc, &half)?.is_none() & pair)
}

/// Whether bytes that are no UTF-8 are read by lines, and parted.
fn takes_bytes_apart(alloc: Global) -> Result<bool, AllocError> {
    let log = LocalHipByt::borrowed(b"GET /\xFF 200\r\n\xC3 404 \nPUT /a 200");
    let line = LocalHipByt::borrowed(b"\xFF=\x80=");
    let pair = match key_and_value_bytes(alloc, &line)? {
        Some((key, value)) => key.eq_slice(b"\xFF") & value.eq_slice(b"\x80="),
        None => false,
    };
    Ok((lines_with_status(alloc, &log, b"200")? == 2) & pair)
}

#[test]
fn bytes_are_cut_as_texts_are(rt: HostRuntime) {
    assert!(rt; takes_bytes_apart(rt.alloc()) == Ok(true));
}

#[test]
fn records_are_cut_by_one_call_a_field(rt: HostRuntime) {
    assert!(rt; reads_records(rt.alloc()));
    assert!(rt; takes_apart(rt.alloc()) == Ok(true));
}

#[test]
fn counts_are_written(rt: HostRuntime) {
    assert!(rt; reports(rt.alloc()) == Ok(true));
}

#[test]
fn loops_go_over_all_pieces(rt: HostRuntime) {
    assert!(rt; goes_over(rt.alloc()) == Ok(true));
}

#[test]
fn parts_are_the_same_on_either_backend(rt: HostRuntime) {
    assert!(rt; reads::<Rc>(rt.alloc()) & reads::<Unique>(rt.alloc()));
}
