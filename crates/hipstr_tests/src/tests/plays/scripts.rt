//! Scripts and what they print, on either backend.
use super::support::{FIRST_ANSWERS, FIRST_RUN, ends, played};
use hipstr::{Backend, Rc, Unique};
use std::alloc::Global;
use std::process::Abort;

/// A script, and what it prints.
type Row = (&'static str, &'static str);

/// Plays scripts on a backend, and compares what they print.
fn print<B: Backend>(rt: &impl Abort, alloc: Global, rows: &[Row]) {
    for (script, answers) in rows {
        ends(
            rt,
            script,
            &played::<B>(alloc, script),
            (answers.as_bytes(), Ok(())),
        );
    }
}

/// A machine that refuses everything fails each row.
fn answer_rows() -> &'static [Row] {
    &[
        (FIRST_RUN, FIRST_ANSWERS),
        // The first test that fails decides.
        (
            "copy 0 \"abc\"\nslice 0 1 4..2\nslice 0 1 2..1\nslice 0 1 ..=18446744073709551615\n",
            "done\nrefused StartOutOfBounds\nrefused StartGreaterThanEnd\nrefused EndOutOfBounds\n",
        ),
        (
            "copy 0 \"abc\"\nslice 0 0 1..\nslice 0 1 ..=18446744073709551615\nslice 16 1 ..\nshow 0\n",
            "done\ndone\nrefused EndOutOfBounds\nrefused NoSlot\nbytes \"bc\"\n",
        ),
        // Every form of a range.
        (
            "copy 0 \"abcd\"\nslice 0 1 1..3\nshow 1\nslice 0 1 1..=2\nshow 1\nslice 0 1 3..\nshow 1\nslice 0 1 ..1\nshow 1\nslice 0 1 ..=1\nshow 1\nslice 0 1 ..\nshow 1\nslice 0 1 2..2\nshow 1\n",
            "done\ndone\nbytes \"bc\"\ndone\nbytes \"bc\"\ndone\nbytes \"d\"\ndone\nbytes \"a\"\ndone\nbytes \"ab\"\ndone\nbytes \"abcd\"\ndone\nbytes \"\"\n",
        ),
        // A clone and its source don't see each other's writes.
        (
            "copy 0 \"ab\"\nclone 0 1\npush 1 \"c\"\ntruncate 0 1\nshow 0\nshow 1\ntruncate 1 9\nlen 1\n",
            "done\ndone\ndone\ndone\nbytes \"a\"\nbytes \"abc\"\ndone\n3\n",
        ),
        // Slots that aren't there.
        (
            "new 16\ncopy 16 \"\"\nclone 0 16\nclone 16 0\nslice 0 16 9..\npush 16 \"\"\ntruncate 99 0\nlen 18446744073709551615\nshow 16\n",
            "refused NoSlot\nrefused NoSlot\nrefused NoSlot\nrefused NoSlot\nrefused NoSlot\nrefused NoSlot\nrefused NoSlot\nrefused NoSlot\nrefused NoSlot\n",
        ),
        // Escapes of either case; how bytes are printed.
        (
            "copy 0 \"\\x00\\x0a\\xFF \\\"\\\\~\\x7F\"\nshow 0\nlen 0\n",
            "done\nbytes \"\\x00\\x0a\\xff \\\"\\\\~\\x7f\"\n8\n",
        ),
        (
            "copy 0 \"\\x9f\\xAe\\xbC\\xDd\"\nshow 0\n",
            "done\nbytes \"\\x9f\\xae\\xbc\\xdd\"\n",
        ),
        // Empty lines, line ends of two bytes, no end of the last line, leading zeros.
        ("\nnew 0\r\n\r\nlen 000", "done\n0\n"),
        ("", ""),
    ]
}

#[test]
fn answers(rt: HostRuntime) {
    print::<Rc>(&rt, rt.alloc(), answer_rows());
    print::<Unique>(&rt, rt.alloc(), answer_rows());
}

/// Slots that are texts.
fn text_rows() -> &'static [Row] {
    &[
        (
            "copy 0 \"\\xC3\\xA9\"\ntext 0\ntext 0\nslice 0 1 1..\ntruncate 0 1\npush 0 \"\\xFF\"\nset 0 0 65\npop 0\nlen 0\n",
            "done\ndone\nrefused NotBytes\nrefused StartNotACharBoundary\nrefused EndNotACharBoundary\nrefused NotUtf8\nrefused NotBytes\nchar 233\n0\n",
        ),
        // A refused text stays bytes, as it was; both ways keep kind and capacity and copy nothing.
        (
            "copy 0 \"a\\xFF\"\ntext 0\nbytes 0\nshow 0\nroom 1 64\ncapacity 1\ntext 1\nkind 1\ncapacity 1\nbytes 1\nkind 1\ncapacity 1\nshow 1\ncopied\n",
            "done\nrefused NotUtf8\nrefused NotText\nbytes \"a\\xff\"\ndone\n64\ndone\nallocated\n64\ndone\nallocated\n64\nbytes \"\"\n2\n",
        ),
        // A value made of a text is a text, whatever stood in the slot; a join is bytes.
        (
            "borrow 0 \"a\\xC3\\xA9b\"\ntext 0\nclone 0 1\nslice 0 2 1..3\nrepeat 0 3 2\njoin 0 2 \"-\" 4\nshow 1\nshow 2\nshow 3\nshow 4\nkind 2\ncopied\n",
            "done\ndone\ndone\ndone\ndone\ndone\ntext \"a\\xc3\\xa9b\"\ntext \"\\xc3\\xa9\"\ntext \"a\\xc3\\xa9ba\\xc3\\xa9b\"\nbytes \"a\\xc3\\xa9b-a\\xc3\\xa9b\"\nborrowed\n17\n",
        ),
        // Each command that changes a text in place keeps it one.
        (
            "copy 0 \"a\\xC3\\xA9\"\ntext 0\nupper 0\npush 0 \"z\"\nlower 0\nmutate 0 \"\\xFF\"\nmutate 0 \"!\"\nowned 0\nshrink 0 0\nshow 0\ntruncate 0 9\ntruncate 0 3\nshow 0\ncompare 0 1\nclear 0\nshow 0\npop 0\nbytes 0\npop 0\n",
            "done\ndone\ndone\ndone\ndone\nrefused NotUtf8\ndone\ndone\ndone\ntext \"a\\xc3\\xa9z!\"\ndone\ndone\ntext \"a\\xc3\\xa9\"\ngreater\ndone\ntext \"\"\nnothing\ndone\nnothing\n",
        ),
        // A target takes the flag of its source; what is made anew is bytes.
        (
            "copy 0 \"ab\"\ncopy 1 \"c\"\ntext 1\nclone 0 1\nshow 1\ntext 1\nslice 1 0 1..\nshow 0\ncopy 0 \"d\"\nshow 0\nnew 1\nshow 1\n",
            "done\ndone\ndone\ndone\nbytes \"ab\"\ndone\ndone\ntext \"b\"\ndone\nbytes \"d\"\ndone\nbytes \"\"\n",
        ),
        // The order of the tests: the slot, its flag, what the row says.
        (
            "text 16\nbytes 16\nset 16 0 0\nbytes 0\ntext 0\nset 0 9 0\nslice 0 16 5..\nslice 0 1 5..\n",
            "refused NoSlot\nrefused NoSlot\nrefused NoSlot\nrefused NotText\ndone\nrefused NotBytes\nrefused NoSlot\nrefused StartOutOfBounds\n",
        ),
    ]
}

#[test]
fn texts(rt: HostRuntime) {
    print::<Rc>(&rt, rt.alloc(), text_rows());
    print::<Unique>(&rt, rt.alloc(), text_rows());
}

/// Texts that are cut.
fn cut_rows() -> &'static [Row] {
    &[
        (
            "copy 0 \"xxaxx\"\ntext 0\ntrimm 0 1 both char \"x\"\nshow 1\ntrimm 0 1 both text \"x\"\nstrip 0 1 front text \"y\"\nshow 1\n",
            "done\ndone\ndone\ntext \"a\"\nrefused OneEnd\nnothing\ntext \"a\"\n",
        ),
        (
            "copy 0 \"a,b,c,d\"\ntext 0\npieces 0 split char \",\" FF 0\npieces 0 splitn 2 char \",\" B 1\npieces 0 split text \",\" FFFFFF 1\npieces 0 split char \",\" FF 15\npieces 0 split char \",\" B 15\nshow 15\nonce 0 5 6 back char \",\"\nshow 5\nonce 0 5 5 front char \",\"\n",
            "done\ndone\nrefused Overlap\nrefused OneEnd\n4\nrefused NoSlot\n1\ntext \"d\"\ndone\ntext \"a,b,c\"\nrefused Overlap\n",
        ),
        (
            "borrow 0 \"a,b,c,d\"\ntext 0\npieces 0 split char \",\" FBBFF 1\nshow 2\nkind 2\ncopied\n",
            "done\ndone\n4\ntext \"d\"\nborrowed\n0\n",
        ),
        // Sets of characters, one after another, and scripts beside them; no ends, at the pool's end.
        (
            "copy 0 \"a1b22c\"\ntext 0\ntrimm 0 5 start any \"1a\"\npieces 0 split any \"0123456789\" FBF 1\nstrip 0 6 back any \"c\"\npieces 0 rmatches any \"\" BB 7\nshow 5\nshow 1\nshow 2\nshow 3\nshow 6\npieces 0 lines - 16\n",
            "done\ndone\ndone\n3\ndone\n0\ntext \"b22c\"\ntext \"a\"\ntext \"c\"\ntext \"b\"\ntext \"a1b22\"\n0\n",
        ),
        // White space and every way to take a text apart.
        (
            "copy 0 \" a\\x0Bb, \"\ntrim 0 1 both\ntext 0\ntrim 0 1 start\nshow 1\ntrim 0 1 end\nshow 1\ntrim 0 1 both\nshow 1\npieces 0 words FFF 2\npieces 0 asciiwords FFF 2\npieces 0 inclusive char \",\" FF 2\npieces 0 terminator text \" \" FFF 2\npieces 0 matches char \" \" BB 2\npieces 0 rsplit text \",\" FF 2\npieces 0 rterminator char \" \" FB 2\npieces 0 rsplitn 1 char \",\" F 2\n",
            "done\nrefused NotText\ndone\ndone\ntext \"a\\x0bb, \"\ndone\ntext \" a\\x0bb,\"\ndone\ntext \"a\\x0bb,\"\n2\n1\n2\n2\n2\n2\n2\n1\n",
        ),
    ]
}

#[test]
fn cuts(rt: HostRuntime) {
    print::<Rc>(&rt, rt.alloc(), cut_rows());
    print::<Unique>(&rt, rt.alloc(), cut_rows());
}

/// Kinds and capacities.
fn kind_rows() -> &'static [Row] {
    &[
        // A borrowed value: its clone is borrowed, and a push of nothing leaves it so.
        (
            "borrow 0 \"abc\"\nclone 0 1\nkind 1\npush 1 \"\"\nkind 1\ncopied\n",
            "done\ndone\nborrowed\ndone\nborrowed\n0\n",
        ),
        // Nor does a push of nothing change a shared allocated value, or room in which nothing stands.
        (
            "copy 0 \"abcdefghijklmnopqrstuvwxyz\"\nclone 0 1\npush 1 \"\"\nkind 1\nlen 1\nroom 2 42\npush 2 \"\"\nkind 2\nlen 2\n",
            "done\ndone\ndone\nallocated\n26\ndone\ndone\nallocated\n0\n",
        ),
        // A slice outlives its source, and copies what fits the handle.
        (
            "copy 0 \"Hello John\"\nslice 0 1 6..\nnew 0\nshow 1\nkind 1\ncopied\n",
            "done\ndone\ndone\nbytes \"John\"\ninline\n14\n",
        ),
        (
            "new 0\npop 0\nlen 0\nkind 0\ncapacity 0\n",
            "done\nnothing\n0\ninline\n23\n",
        ),
        // The limit of the handle itself.
        (
            "inline 0 \"aaaaaaaaaaaaaaaaaaaaaaa\"\ninline 1 \"aaaaaaaaaaaaaaaaaaaaaaaa\"\nkind 0\nlen 0\npush 0 \"b\"\nkind 0\nlen 0\npop 0\nkind 0\n",
            "done\nrefused TooLong\ninline\n23\ndone\nallocated\n24\nbyte 98\ninline\n",
        ),
        // The bytes behind a slice in its source don't come back.
        (
            "copy 0 \"abcdefghijklmnopqrstuvwxyz\"\nslice 0 1 0..24\nnew 0\npush 1 \"!\"\nshow 1\nkind 1\n",
            "done\ndone\ndone\ndone\nbytes \"abcdefghijklmnopqrstuvwx!\"\nallocated\n",
        ),
        // Room stays until bytes go.
        (
            "room 0 42\nclear 0\nkind 0\nlen 0\nslice 0 1 0..0\nkind 1\nroom 2 23\nkind 2\nroom 3 18446744073709551615\n",
            "done\ndone\nallocated\n0\ndone\ninline\ndone\ninline\nrefused Memory\n",
        ),
        // Borrowed bytes are cut with no copy, however few.
        (
            "borrow 0 \"abcdefghijklmnopqrstuvwxyzabcd\"\nslice 0 1 2..5\nkind 1\ntruncate 0 5\nkind 0\ncapacity 0\nclear 1\nkind 1\ncopied\n",
            "done\ndone\nborrowed\ndone\nborrowed\n5\ndone\nborrowed\n0\n",
        ),
        // No write through one handle shows in another, whether owners are shared or not.
        (
            "copy 0 \"aaaaaaaaaaaaaaaaaaaaaaaaaaaaaa\"\nclone 0 1\nslice 0 2 3..30\npush 0 \"b\"\ntruncate 1 29\nshow 0\nshow 1\nshow 2\n",
            "done\ndone\ndone\ndone\ndone\nbytes \"aaaaaaaaaaaaaaaaaaaaaaaaaaaaaab\"\nbytes \"aaaaaaaaaaaaaaaaaaaaaaaaaaaaa\"\nbytes \"aaaaaaaaaaaaaaaaaaaaaaaaaaa\"\n",
        ),
    ]
}

#[test]
fn kinds(rt: HostRuntime) {
    print::<Rc>(&rt, rt.alloc(), kind_rows());
    print::<Unique>(&rt, rt.alloc(), kind_rows());
}

/// Records of fields, on either backend.
fn record_rows() -> &'static [Row] {
    &[
        (
            "borrow 0 \"a,b\\x0A\\x0Ac,,d\\x0D\\x0A\"\ntext 0\nfields 0 \",\"\ncopied\nfields 1 \",\"\nfields 16 \",\"\n",
            "done\ndone\nrecord \"a\" \"b\"\nrecord \"\"\nrecord \"c\" \"\" \"d\"\n0\nrefused NotText\nrefused NoSlot\n",
        ),
        // No line, no record; a line that is empty is one, of one field.
        (
            "text 0\nfields 0 \",\"\npush 0 \"\\x0A\"\nfields 0 \",\"\ncopied\n",
            "done\ndone\nrecord \"\"\n1\n",
        ),
        // At a line feed a record has one field, its line; at a return, those that end no line stand between fields.
        (
            "borrow 0 \"a\\x0D\\x0Ab\\x0Dc\\x0D\"\ntext 0\nfields 0 \"\\x0A\"\nfields 0 \"\\x0d\"\nfields 0 \",\"\n",
            "done\ndone\nrecord \"a\"\nrecord \"b\\x0dc\\x0d\"\nrecord \"a\"\nrecord \"b\" \"c\" \"\"\nrecord \"a\"\nrecord \"b\\x0dc\\x0d\"\n",
        ),
        // A character of four bytes.
        (
            "borrow 0 \"a\\xF0\\x9F\\x8C\\x8D\\x0A\\xF0\\x9F\\x8C\\x8Eb\"\ntext 0\nfields 0 \"\\xF0\\x9F\\x8C\\x8D\"\n",
            "done\ndone\nrecord \"a\" \"\"\nrecord \"\\xf0\\x9f\\x8c\\x8eb\"\n",
        ),
        // The meter is the script's; a line of fields is no command, and the text is as it was.
        (
            "copy 0 \"a,\\\"\\\\\"\ntext 0\nfields 0 \",\"\nshow 0\ncopied\n",
            "done\ndone\nrecord \"a\" \"\\\"\\\\\"\ntext \"a,\\\"\\\\\"\n7\n",
        ),
    ]
}

const LONG_FIELD: &str =
    "copy 0 \"aaaaaaaaaaaaaaaaaaaaaaaaaaaaaaaaaaaaaaaa,bc\\x0A\"\ntext 0\ncopied\nfields 0 \",\"\ncopied\n";

/// A field of 40 bytes copies none where owners are shared, one of 2 bytes its own.
#[test]
fn records(rt: HostRuntime) {
    print::<Rc>(&rt, rt.alloc(), record_rows());
    print::<Unique>(&rt, rt.alloc(), record_rows());
    let on_rc = "done\ndone\n44\nrecord \"aaaaaaaaaaaaaaaaaaaaaaaaaaaaaaaaaaaaaaaa\" \"bc\"\n46\n";
    let on_unique =
        "done\ndone\n44\nrecord \"aaaaaaaaaaaaaaaaaaaaaaaaaaaaaaaaaaaaaaaa\" \"bc\"\n86\n";
    print::<Rc>(&rt, rt.alloc(), &[(LONG_FIELD, on_rc)]);
    print::<Unique>(&rt, rt.alloc(), &[(LONG_FIELD, on_unique)]);
}

/// Scripts that write over a value, make one of another, or compare two.
fn growth_rows() -> &'static [Row] {
    &[
        (
            "copy 0 \"ab\"\nrepeat 0 1 0\nkind 1\nrepeat 0 1 18446744073709551615\njoin 0 2 \"-\" 2\nshow 2\njoin 15 2 \"\" 0\n",
            "done\ndone\ninline\nrefused TooLong\ndone\nbytes \"ab-\"\nrefused NoSlot\n",
        ),
        (
            "copy 0 \"ab\"\nrepeat 0 1 3\nshow 1\njoin 0 3 \"; \" 0\nshow 0\njoin 16 0 \"-\" 1\nshow 1\njoin 0 16 \"-\" 16\n",
            "done\ndone\nbytes \"ababab\"\ndone\nbytes \"ab; ababab; \"\ndone\nbytes \"\"\nrefused NoSlot\n",
        ),
        (
            "copy 0 \"abc\"\ncopy 1 \"abd\"\ncompare 0 1\ncompare 1 0\ncompare 1 1\ncompare 0 16\n",
            "done\ndone\nless\ngreater\nequal\nrefused NoSlot\n",
        ),
        // By components, bytes and texts alike; nothing is copied.
        (
            "borrow 0 \"a//\"\nborrow 1 \"a/\"\ncomparepath 0 1\ncompare 0 1\ntext 0\nborrow 1 \"./a\"\ncomparepath 1 0\ncomparepath 0 1\nborrow 1 \"a/./\\xFF\"\ncomparepath 0 1\ncomparepath 0 16\ncopied\n",
            "done\ndone\nequal\ngreater\ndone\ndone\nless\ngreater\ndone\nless\nrefused NoSlot\n0\n",
        ),
        // A write on a shared owner shows in one handle alone.
        (
            "copy 0 \"aaaaaaaaaaaaaaaaaaaaaaaaaa\"\nclone 0 1\nset 0 0 98\nset 0 26 98\nupper 1\nlower 1\nupper 1\nshow 0\nshow 1\nkind 0\n",
            "done\ndone\ndone\nrefused OutOfRange\ndone\ndone\ndone\nbytes \"baaaaaaaaaaaaaaaaaaaaaaaaa\"\nbytes \"AAAAAAAAAAAAAAAAAAAAAAAAAA\"\nallocated\n",
        ),
        (
            "copy 0 \"aaaaaaaaaaaaaaaaaaaaaaaaaaaaaa\"\nclone 0 1\nslice 0 2 3..30\nset 0 5 98\nshow 0\nshow 1\nshow 2\n",
            "done\ndone\ndone\ndone\nbytes \"aaaaabaaaaaaaaaaaaaaaaaaaaaaaa\"\nbytes \"aaaaaaaaaaaaaaaaaaaaaaaaaaaaaa\"\nbytes \"aaaaaaaaaaaaaaaaaaaaaaaaaaa\"\n",
        ),
        // Room for 24 bytes isn't needed by 2.
        (
            "room 0 200\npush 0 \"ab\"\nshrink 0 24\nkind 0\nshrink 0 23\nkind 0\nborrow 1 \"xyz\"\nupper 1\nkind 1\nborrow 2 \"xyz\"\nowned 2\nkind 2\nshow 2\n",
            "done\ndone\ndone\nallocated\ndone\ninline\ndone\ndone\ninline\ndone\ndone\ninline\nbytes \"xyz\"\n",
        ),
        (
            "copy 0 \"Hello, World!\"\nmutate 0 \"!\"\nshow 0\nkind 0\nmutate 0 \"aaaaaaaaaaaa\"\nkind 0\nlen 0\nmutate 16 \"\"\n",
            "done\ndone\nbytes \"Hello, World!!\"\ninline\ndone\nallocated\n26\nrefused NoSlot\n",
        ),
    ]
}

#[test]
fn growth(rt: HostRuntime) {
    print::<Rc>(&rt, rt.alloc(), growth_rows());
    print::<Unique>(&rt, rt.alloc(), growth_rows());
}

/// A sole owner is written in place, on either backend, and gives its room back. One that never wrote in place on `Rc` would copy
/// what stands there at the second push and at the byte that is set.
fn in_place_rows() -> &'static [Row] {
    &[(
        "room 0 200\npush 0 \"aaaaaaaaaaaaaaaaaaaaaaaaaaaaaa\"\npush 0 \"aaaaaaaaaaaaaaaaaaaaaaaaaaaaaa\"\nset 0 0 98\ncopied\nshrink 0 0\nlen 0\ncapacity 0\n",
        "done\ndone\ndone\ndone\n60\ndone\n60\n60\n",
    )]
}

#[test]
fn rc_never_in_place(rt: HostRuntime) {
    print::<Rc>(&rt, rt.alloc(), in_place_rows());
    print::<Unique>(&rt, rt.alloc(), in_place_rows());
}

const LIMIT: &str =
    "borrow 0 \"abcdefghijklmnopqrstuvwxyz\"\ncopy 0 \"abcdefghijklmnopqrstuvwxyz\"\ncopied\nslice 0 1 0..23\nkind 1\ncopied\nslice 0 1 0..24\nkind 1\ncopied\nclone 0 2\ncopied\n";

/// A slice of 23 bytes copies them; one of 24 copies none where owners are shared.
#[test]
fn inline_limit(rt: HostRuntime) {
    let on_rc = "done\ndone\n26\ndone\ninline\n49\ndone\nallocated\n49\ndone\n49\n";
    let on_unique = "done\ndone\n26\ndone\ninline\n49\ndone\nallocated\n73\ndone\n99\n";
    print::<Rc>(&rt, rt.alloc(), &[(LIMIT, on_rc)]);
    print::<Unique>(&rt, rt.alloc(), &[(LIMIT, on_unique)]);
}
