//! Paths, and pairs of paths, with the answers of Rust's `std::path`: scripts/path_answers.rs writes this file, and says how an answer
//! is written. Each table has a function that gives it, so that those who go through it know nothing of its rows.

/// A path, and what is told of it.
pub(crate) type Path = (&'static [u8], &'static [u8]);

/// Two paths, and what is told of them.
pub(crate) type Pair = (&'static [u8], &'static [u8], &'static [u8]);

const PATHS_0: &[Path] = &[
    (b"", b"-|-|-|-|n|<"),
    (b"/", b"-|-|-|-|y|R|<R|"),
    (b".", b"-|-|-|=|n|C|<C|"),
    (b"a", b"=a|=a|-|=|n|Na|<Na|"),
    (b"//", b"-|-|-|-|y|R|<R|"),
    (b"/.", b"-|-|-|-|y|R|<R|"),
    (b"/a", b"=a|=a|-|=/|y|R|Na|<Na|R|"),
    (b"./", b"-|-|-|=|n|C|<C|"),
    (b"..", b"-|-|-|=|n|P|<P|"),
    (b".a", b"=.a|=.a|-|=|n|N.a|<N.a|"),
    (b"a/", b"=a|=a|-|=|n|Na|<Na|"),
    (b"a.", b"=a.|=a|=|=|n|Na.|<Na.|"),
    (b"aa", b"=aa|=aa|-|=|n|Naa|<Naa|"),
    (b"///", b"-|-|-|-|y|R|<R|"),
    (b"//.", b"-|-|-|-|y|R|<R|"),
    (b"//a", b"=a|=a|-|=/|y|R|Na|<Na|R|"),
    (b"/./", b"-|-|-|-|y|R|<R|"),
    (b"/..", b"-|-|-|=/|y|R|P|<P|R|"),
    (b"/.a", b"=.a|=.a|-|=/|y|R|N.a|<N.a|R|"),
    (b"/a/", b"=a|=a|-|=/|y|R|Na|<Na|R|"),
    (b"/a.", b"=a.|=a|=|=/|y|R|Na.|<Na.|R|"),
    (b"/aa", b"=aa|=aa|-|=/|y|R|Naa|<Naa|R|"),
    (b".//", b"-|-|-|=|n|C|<C|"),
    (b"./.", b"-|-|-|=|n|C|<C|"),
];

pub(crate) fn paths_0() -> &'static [Path] {
    PATHS_0
}

const PATHS_1: &[Path] = &[
    (b"./a", b"=a|=a|-|=.|n|C|Na|<Na|C|"),
    (b"../", b"-|-|-|=|n|P|<P|"),
    (b"...", b"=...|=..|=|=|n|N...|<N...|"),
    (b"..a", b"=..a|=.|=a|=|n|N..a|<N..a|"),
    (b".a/", b"=.a|=.a|-|=|n|N.a|<N.a|"),
    (b".a.", b"=.a.|=.a|=|=|n|N.a.|<N.a.|"),
    (b".aa", b"=.aa|=.aa|-|=|n|N.aa|<N.aa|"),
    (b"a//", b"=a|=a|-|=|n|Na|<Na|"),
    (b"a/.", b"=a|=a|-|=|n|Na|<Na|"),
    (b"a/a", b"=a|=a|-|=a|n|Na|Na|<Na|Na|"),
    (b"a./", b"=a.|=a|=|=|n|Na.|<Na.|"),
    (b"a..", b"=a..|=a.|=|=|n|Na..|<Na..|"),
    (b"a.a", b"=a.a|=a|=a|=|n|Na.a|<Na.a|"),
    (b"aa/", b"=aa|=aa|-|=|n|Naa|<Naa|"),
    (b"aa.", b"=aa.|=aa|=|=|n|Naa.|<Naa.|"),
    (b"aaa", b"=aaa|=aaa|-|=|n|Naaa|<Naaa|"),
    (b"////", b"-|-|-|-|y|R|<R|"),
    (b"///.", b"-|-|-|-|y|R|<R|"),
    (b"///a", b"=a|=a|-|=/|y|R|Na|<Na|R|"),
    (b"//./", b"-|-|-|-|y|R|<R|"),
    (b"//..", b"-|-|-|=/|y|R|P|<P|R|"),
    (b"//.a", b"=.a|=.a|-|=/|y|R|N.a|<N.a|R|"),
    (b"//a/", b"=a|=a|-|=/|y|R|Na|<Na|R|"),
    (b"//a.", b"=a.|=a|=|=/|y|R|Na.|<Na.|R|"),
];

pub(crate) fn paths_1() -> &'static [Path] {
    PATHS_1
}

const PATHS_2: &[Path] = &[
    (b"//aa", b"=aa|=aa|-|=/|y|R|Naa|<Naa|R|"),
    (b"/.//", b"-|-|-|-|y|R|<R|"),
    (b"/./.", b"-|-|-|-|y|R|<R|"),
    (b"/./a", b"=a|=a|-|=/|y|R|Na|<Na|R|"),
    (b"/../", b"-|-|-|=/|y|R|P|<P|R|"),
    (b"/...", b"=...|=..|=|=/|y|R|N...|<N...|R|"),
    (b"/..a", b"=..a|=.|=a|=/|y|R|N..a|<N..a|R|"),
    (b"/.a/", b"=.a|=.a|-|=/|y|R|N.a|<N.a|R|"),
    (b"/.a.", b"=.a.|=.a|=|=/|y|R|N.a.|<N.a.|R|"),
    (b"/.aa", b"=.aa|=.aa|-|=/|y|R|N.aa|<N.aa|R|"),
    (b"/a//", b"=a|=a|-|=/|y|R|Na|<Na|R|"),
    (b"/a/.", b"=a|=a|-|=/|y|R|Na|<Na|R|"),
    (b"/a/a", b"=a|=a|-|=/a|y|R|Na|Na|<Na|Na|R|"),
    (b"/a./", b"=a.|=a|=|=/|y|R|Na.|<Na.|R|"),
    (b"/a..", b"=a..|=a.|=|=/|y|R|Na..|<Na..|R|"),
    (b"/a.a", b"=a.a|=a|=a|=/|y|R|Na.a|<Na.a|R|"),
    (b"/aa/", b"=aa|=aa|-|=/|y|R|Naa|<Naa|R|"),
    (b"/aa.", b"=aa.|=aa|=|=/|y|R|Naa.|<Naa.|R|"),
    (b"/aaa", b"=aaa|=aaa|-|=/|y|R|Naaa|<Naaa|R|"),
    (b".///", b"-|-|-|=|n|C|<C|"),
    (b".//.", b"-|-|-|=|n|C|<C|"),
    (b".//a", b"=a|=a|-|=.|n|C|Na|<Na|C|"),
    (b"././", b"-|-|-|=|n|C|<C|"),
    (b"./..", b"-|-|-|=.|n|C|P|<P|C|"),
];

pub(crate) fn paths_2() -> &'static [Path] {
    PATHS_2
}

const PATHS_3: &[Path] = &[
    (b"./.a", b"=.a|=.a|-|=.|n|C|N.a|<N.a|C|"),
    (b"./a/", b"=a|=a|-|=.|n|C|Na|<Na|C|"),
    (b"./a.", b"=a.|=a|=|=.|n|C|Na.|<Na.|C|"),
    (b"./aa", b"=aa|=aa|-|=.|n|C|Naa|<Naa|C|"),
    (b"..//", b"-|-|-|=|n|P|<P|"),
    (b"../.", b"-|-|-|=|n|P|<P|"),
    (b"../a", b"=a|=a|-|=..|n|P|Na|<Na|P|"),
    (b".../", b"=...|=..|=|=|n|N...|<N...|"),
    (b"....", b"=....|=...|=|=|n|N....|<N....|"),
    (b"...a", b"=...a|=..|=a|=|n|N...a|<N...a|"),
    (b"..a/", b"=..a|=.|=a|=|n|N..a|<N..a|"),
    (b"..a.", b"=..a.|=..a|=|=|n|N..a.|<N..a.|"),
    (b"..aa", b"=..aa|=.|=aa|=|n|N..aa|<N..aa|"),
    (b".a//", b"=.a|=.a|-|=|n|N.a|<N.a|"),
    (b".a/.", b"=.a|=.a|-|=|n|N.a|<N.a|"),
    (b".a/a", b"=a|=a|-|=.a|n|N.a|Na|<Na|N.a|"),
    (b".a./", b"=.a.|=.a|=|=|n|N.a.|<N.a.|"),
    (b".a..", b"=.a..|=.a.|=|=|n|N.a..|<N.a..|"),
    (b".a.a", b"=.a.a|=.a|=a|=|n|N.a.a|<N.a.a|"),
    (b".aa/", b"=.aa|=.aa|-|=|n|N.aa|<N.aa|"),
    (b".aa.", b"=.aa.|=.aa|=|=|n|N.aa.|<N.aa.|"),
    (b".aaa", b"=.aaa|=.aaa|-|=|n|N.aaa|<N.aaa|"),
    (b"a///", b"=a|=a|-|=|n|Na|<Na|"),
    (b"a//.", b"=a|=a|-|=|n|Na|<Na|"),
];

pub(crate) fn paths_3() -> &'static [Path] {
    PATHS_3
}

const PATHS_4: &[Path] = &[
    (b"a//a", b"=a|=a|-|=a|n|Na|Na|<Na|Na|"),
    (b"a/./", b"=a|=a|-|=|n|Na|<Na|"),
    (b"a/..", b"-|-|-|=a|n|Na|P|<P|Na|"),
    (b"a/.a", b"=.a|=.a|-|=a|n|Na|N.a|<N.a|Na|"),
    (b"a/a/", b"=a|=a|-|=a|n|Na|Na|<Na|Na|"),
    (b"a/a.", b"=a.|=a|=|=a|n|Na|Na.|<Na.|Na|"),
    (b"a/aa", b"=aa|=aa|-|=a|n|Na|Naa|<Naa|Na|"),
    (b"a.//", b"=a.|=a|=|=|n|Na.|<Na.|"),
    (b"a./.", b"=a.|=a|=|=|n|Na.|<Na.|"),
    (b"a./a", b"=a|=a|-|=a.|n|Na.|Na|<Na|Na.|"),
    (b"a../", b"=a..|=a.|=|=|n|Na..|<Na..|"),
    (b"a...", b"=a...|=a..|=|=|n|Na...|<Na...|"),
    (b"a..a", b"=a..a|=a.|=a|=|n|Na..a|<Na..a|"),
    (b"a.a/", b"=a.a|=a|=a|=|n|Na.a|<Na.a|"),
    (b"a.a.", b"=a.a.|=a.a|=|=|n|Na.a.|<Na.a.|"),
    (b"a.aa", b"=a.aa|=a|=aa|=|n|Na.aa|<Na.aa|"),
    (b"aa//", b"=aa|=aa|-|=|n|Naa|<Naa|"),
    (b"aa/.", b"=aa|=aa|-|=|n|Naa|<Naa|"),
    (b"aa/a", b"=a|=a|-|=aa|n|Naa|Na|<Na|Naa|"),
    (b"aa./", b"=aa.|=aa|=|=|n|Naa.|<Naa.|"),
    (b"aa..", b"=aa..|=aa.|=|=|n|Naa..|<Naa..|"),
    (b"aa.a", b"=aa.a|=aa|=a|=|n|Naa.a|<Naa.a|"),
    (b"aaa/", b"=aaa|=aaa|-|=|n|Naaa|<Naaa|"),
    (b"aaa.", b"=aaa.|=aaa|=|=|n|Naaa.|<Naaa.|"),
];

pub(crate) fn paths_4() -> &'static [Path] {
    PATHS_4
}

const PATHS_5: &[Path] = &[
    (b"aaaa", b"=aaaa|=aaaa|-|=|n|Naaaa|<Naaaa|"),
    (b"foo", b"=foo|=foo|-|=|n|Nfoo|<Nfoo|"),
    (b"foo/", b"=foo|=foo|-|=|n|Nfoo|<Nfoo|"),
    (
        b"/foo//bar",
        b"=bar|=bar|-|=/foo|y|R|Nfoo|Nbar|<Nbar|Nfoo|R|",
    ),
    (b"foo/.", b"=foo|=foo|-|=|n|Nfoo|<Nfoo|"),
    (b"a/b/../", b"-|-|-|=a/b|n|Na|Nb|P|<P|Nb|Na|"),
    (b"a//b/./", b"=b|=b|-|=a|n|Na|Nb|<Nb|Na|"),
    (b"foo.txt", b"=foo.txt|=foo|=txt|=|n|Nfoo.txt|<Nfoo.txt|"),
    (
        b"/foo.txt/",
        b"=foo.txt|=foo|=txt|=/|y|R|Nfoo.txt|<Nfoo.txt|R|",
    ),
    (b"foo.txt/.", b"=foo.txt|=foo|=txt|=|n|Nfoo.txt|<Nfoo.txt|"),
    (b"foo.txt//..", b"-|-|-|=foo.txt|n|Nfoo.txt|P|<P|Nfoo.txt|"),
    (
        b"foo.tar.gz",
        b"=foo.tar.gz|=foo.tar|=gz|=|n|Nfoo.tar.gz|<Nfoo.tar.gz|",
    ),
    (
        b"/a.b/foo.tar.gz//",
        b"=foo.tar.gz|=foo.tar|=gz|=/a.b|y|R|Na.b|Nfoo.tar.gz|<Nfoo.tar.gz|Na.b|R|",
    ),
    (b".bashrc", b"=.bashrc|=.bashrc|-|=|n|N.bashrc|<N.bashrc|"),
    (
        b"/home/u/.bashrc",
        b"=.bashrc|=.bashrc|-|=/home/u|y|R|Nhome|Nu|N.bashrc|<N.bashrc|Nu|Nhome|R|",
    ),
    (
        b".bashrc.old",
        b"=.bashrc.old|=.bashrc|=old|=|n|N.bashrc.old|<N.bashrc.old|",
    ),
    (b"..rc", b"=..rc|=.|=rc|=|n|N..rc|<N..rc|"),
    (b"...rc", b"=...rc|=..|=rc|=|n|N...rc|<N...rc|"),
    (b"..rc.", b"=..rc.|=..rc|=|=|n|N..rc.|<N..rc.|"),
    (b"foo.", b"=foo.|=foo|=|=|n|Nfoo.|<Nfoo.|"),
    (b"foo..", b"=foo..|=foo.|=|=|n|Nfoo..|<Nfoo..|"),
    (
        b"foo..txt",
        b"=foo..txt|=foo.|=txt|=|n|Nfoo..txt|<Nfoo..txt|",
    ),
    (b".foo.", b"=.foo.|=.foo|=|=|n|N.foo.|<N.foo.|"),
    (b".foo..", b"=.foo..|=.foo.|=|=|n|N.foo..|<N.foo..|"),
];

pub(crate) fn paths_5() -> &'static [Path] {
    PATHS_5
}

const PATHS_6: &[Path] = &[
    (b"a.b/c", b"=c|=c|-|=a.b|n|Na.b|Nc|<Nc|Na.b|"),
    (b"a.b/..", b"-|-|-|=a.b|n|Na.b|P|<P|Na.b|"),
    (b"a.b/.c", b"=.c|=.c|-|=a.b|n|Na.b|N.c|<N.c|Na.b|"),
    (b"a.b/...", b"=...|=..|=|=a.b|n|Na.b|N...|<N...|Na.b|"),
    (b"/a.b", b"=a.b|=a|=b|=/|y|R|Na.b|<Na.b|R|"),
    (b"./a.b", b"=a.b|=a|=b|=.|n|C|Na.b|<Na.b|C|"),
    (b"../a.b", b"=a.b|=a|=b|=..|n|P|Na.b|<Na.b|P|"),
    (b"a/.b.c", b"=.b.c|=.b|=c|=a|n|Na|N.b.c|<N.b.c|Na|"),
    (b"./.b", b"=.b|=.b|-|=.|n|C|N.b|<N.b|C|"),
    (b"./.b/.", b"=.b|=.b|-|=.|n|C|N.b|<N.b|C|"),
    (b". ", b"=. |=. |-|=|n|N. |<N. |"),
    (b".. ", b"=.. |=.|= |=|n|N.. |<N.. |"),
    (b" .", b"= .|= |=|=|n|N .|<N .|"),
    (b"a b.c d", b"=a b.c d|=a b|=c d|=|n|Na b.c d|<Na b.c d|"),
    (b"a\\b.c", b"=a\\b.c|=a\\b|=c|=|n|Na\\b.c|<Na\\b.c|"),
    (b"C:/a.b", b"=a.b|=a|=b|=C:|n|NC:|Na.b|<Na.b|NC:|"),
    (b"C:\\a.b", b"=C:\\a.b|=C:\\a|=b|=|n|NC:\\a.b|<NC:\\a.b|"),
    (b"~/a", b"=a|=a|-|=~|n|N~|Na|<Na|N~|"),
    (b"-", b"=-|=-|-|=|n|N-|<N-|"),
    (b"\n/\n.\n", b"=\n.\n|=\n|=\n|=\n|n|N\n|N\n.\n|<N\n.\n|N\n|"),
    (b"\x00", b"=\x00|=\x00|-|=|n|N\x00|<N\x00|"),
    (
        b"\x00/.\x00",
        b"=.\x00|=.\x00|-|=\x00|n|N\x00|N.\x00|<N.\x00|N\x00|",
    ),
    (b"\xFF", b"=\xFF|=\xFF|-|=|n|N\xFF|<N\xFF|"),
    (b"\xFF/.", b"=\xFF|=\xFF|-|=|n|N\xFF|<N\xFF|"),
];

pub(crate) fn paths_6() -> &'static [Path] {
    PATHS_6
}

const PATHS_7: &[Path] = &[
    (
        b"/\xFF.\xFE",
        b"=\xFF.\xFE|=\xFF|=\xFE|=/|y|R|N\xFF.\xFE|<N\xFF.\xFE|R|",
    ),
    (b".\xFF", b"=.\xFF|=.\xFF|-|=|n|N.\xFF|<N.\xFF|"),
    (b"..\xFF", b"=..\xFF|=.|=\xFF|=|n|N..\xFF|<N..\xFF|"),
    (
        b"a.\xFF/b\xC3.\xC3",
        b"=b\xC3.\xC3|=b\xC3|=\xC3|=a.\xFF|n|Na.\xFF|Nb\xC3.\xC3|<Nb\xC3.\xC3|Na.\xFF|",
    ),
    (
        b"\xC3\xA9.\xC3\xA9",
        b"=\xC3\xA9.\xC3\xA9|=\xC3\xA9|=\xC3\xA9|=|n|N\xC3\xA9.\xC3\xA9|<N\xC3\xA9.\xC3\xA9|",
    ),
    (
        b"/\xF0\x9F\x98\x80.txt",
        b"=\xF0\x9F\x98\x80.txt|=\xF0\x9F\x98\x80|=txt|=/|y|R|N\xF0\x9F\x98\x80.txt|<N\xF0\x9F\x98\x80.txt|R|",
    ),
    (
        b"/usr/lib/",
        b"=lib|=lib|-|=/usr|y|R|Nusr|Nlib|<Nlib|Nusr|R|",
    ),
    (
        b"/usr//lib/./libc.so.6",
        b"=libc.so.6|=libc.so|=6|=/usr//lib|y|R|Nusr|Nlib|Nlibc.so.6|<Nlibc.so.6|Nlib|Nusr|R|",
    ),
    (
        b"a/b/c/d/e/f/g",
        b"=g|=g|-|=a/b/c/d/e/f|n|Na|Nb|Nc|Nd|Ne|Nf|Ng|<Ng|Nf|Ne|Nd|Nc|Nb|Na|",
    ),
    (
        b"/a/b/c/d/e/f/g/",
        b"=g|=g|-|=/a/b/c/d/e/f|y|R|Na|Nb|Nc|Nd|Ne|Nf|Ng|<Ng|Nf|Ne|Nd|Nc|Nb|Na|R|",
    ),
    (
        b"a/../b/../c",
        b"=c|=c|-|=a/../b/..|n|Na|P|Nb|P|Nc|<Nc|P|Nb|P|Na|",
    ),
    (b"../../..", b"-|-|-|=../..|n|P|P|P|<P|P|P|"),
    (b"../../../a", b"=a|=a|-|=../../..|n|P|P|P|Na|<Na|P|P|P|"),
    (b"./../a", b"=a|=a|-|=./..|n|C|P|Na|<Na|P|C|"),
    (b"a/./././b", b"=b|=b|-|=a|n|Na|Nb|<Nb|Na|"),
    (b"././././a", b"=a|=a|-|=.|n|C|Na|<Na|C|"),
    (b"////a////b////", b"=b|=b|-|=////a|y|R|Na|Nb|<Nb|Na|R|"),
    (b"/./././", b"-|-|-|-|y|R|<R|"),
    (b"/../../", b"-|-|-|=/..|y|R|P|P|<P|P|R|"),
    (
        b"abcdefghijklmnopqrstuvw.x",
        b"=abcdefghijklmnopqrstuvw.x|=abcdefghijklmnopqrstuvw|=x|=|n|Nabcdefghijklmnopqrstuvw.x|<Nabcdefghijklmnopqrstuvw.x|",
    ),
    (
        b"0123456789012345678901.x/a",
        b"=a|=a|-|=0123456789012345678901.x|n|N0123456789012345678901.x|Na|<Na|N0123456789012345678901.x|",
    ),
    (
        b"a/0123456789012345678901234567890123456789.text",
        b"=0123456789012345678901234567890123456789.text|=0123456789012345678901234567890123456789|=text|=a|n|Na|N0123456789012345678901234567890123456789.text|<N0123456789012345678901234567890123456789.text|Na|",
    ),
    (
        b"/a/very/long/path/to/a/file/whose/name/is/long.too",
        b"=long.too|=long|=too|=/a/very/long/path/to/a/file/whose/name/is|y|R|Na|Nvery|Nlong|Npath|Nto|Na|Nfile|Nwhose|Nname|Nis|Nlong.too|<Nlong.too|Nis|Nname|Nwhose|Nfile|Na|Nto|Npath|Nlong|Nvery|Na|R|",
    ),
    (
        b"a.tar/b.gz/c",
        b"=c|=c|-|=a.tar/b.gz|n|Na.tar|Nb.gz|Nc|<Nc|Nb.gz|Na.tar|",
    ),
];

pub(crate) fn paths_7() -> &'static [Path] {
    PATHS_7
}

const PATHS_8: &[Path] = &[
    (
        b"a.tar/b.gz/.",
        b"=b.gz|=b|=gz|=a.tar|n|Na.tar|Nb.gz|<Nb.gz|Na.tar|",
    ),
    (
        b"a.tar/b.gz/..",
        b"-|-|-|=a.tar/b.gz|n|Na.tar|Nb.gz|P|<P|Nb.gz|Na.tar|",
    ),
    (
        b"a.tar/.gz/",
        b"=.gz|=.gz|-|=a.tar|n|Na.tar|N.gz|<N.gz|Na.tar|",
    ),
    (b"a.b.c.d", b"=a.b.c.d|=a.b.c|=d|=|n|Na.b.c.d|<Na.b.c.d|"),
    (b".a.b.c", b"=.a.b.c|=.a.b|=c|=|n|N.a.b.c|<N.a.b.c|"),
    (b"..a.b.c", b"=..a.b.c|=..a.b|=c|=|n|N..a.b.c|<N..a.b.c|"),
    (b"a...b", b"=a...b|=a..|=b|=|n|Na...b|<Na...b|"),
    (b"a....", b"=a....|=a...|=|=|n|Na....|<Na....|"),
    (b"....", b"=....|=...|=|=|n|N....|<N....|"),
];

pub(crate) fn paths_8() -> &'static [Path] {
    PATHS_8
}

const PAIRS_0: &[Pair] = &[
    (b"", b"", b"=|y|y|"),
    (b"", b"/", b"=/|n|n|"),
    (b"", b".", b"=.|n|n|"),
    (b"", b"a", b"=a|n|n|"),
    (b"", b"//", b"=//|n|n|"),
    (b"", b"/.", b"=/.|n|n|"),
    (b"", b"/a", b"=/a|n|n|"),
    (b"", b"./", b"=./|n|n|"),
    (b"", b"..", b"=..|n|n|"),
    (b"", b".a", b"=.a|n|n|"),
    (b"", b"a/", b"=a/|n|n|"),
    (b"", b"a.", b"=a.|n|n|"),
    (b"", b"aa", b"=aa|n|n|"),
    (b"/", b"", b"=/|y|y|"),
    (b"/", b"/", b"=/|y|y|"),
    (b"/", b".", b"=/.|n|n|"),
    (b"/", b"a", b"=/a|n|n|"),
    (b"/", b"//", b"=//|y|y|"),
    (b"/", b"/.", b"=/.|y|y|"),
    (b"/", b"/a", b"=/a|n|n|"),
    (b"/", b"./", b"=/./|n|n|"),
    (b"/", b"..", b"=/..|n|n|"),
    (b"/", b".a", b"=/.a|n|n|"),
    (b"/", b"a/", b"=/a/|n|n|"),
];

pub(crate) fn pairs_0() -> &'static [Pair] {
    PAIRS_0
}

const PAIRS_1: &[Pair] = &[
    (b"/", b"a.", b"=/a.|n|n|"),
    (b"/", b"aa", b"=/aa|n|n|"),
    (b".", b"", b"=./|y|y|"),
    (b".", b"/", b"=/|n|n|"),
    (b".", b".", b"=./.|y|y|"),
    (b".", b"a", b"=./a|n|n|"),
    (b".", b"//", b"=//|n|n|"),
    (b".", b"/.", b"=/.|n|n|"),
    (b".", b"/a", b"=/a|n|n|"),
    (b".", b"./", b"=././|y|y|"),
    (b".", b"..", b"=./..|n|n|"),
    (b".", b".a", b"=./.a|n|n|"),
    (b".", b"a/", b"=./a/|n|n|"),
    (b".", b"a.", b"=./a.|n|n|"),
    (b".", b"aa", b"=./aa|n|n|"),
    (b"a", b"", b"=a/|y|y|"),
    (b"a", b"/", b"=/|n|n|"),
    (b"a", b".", b"=a/.|n|n|"),
    (b"a", b"a", b"=a/a|y|y|"),
    (b"a", b"//", b"=//|n|n|"),
    (b"a", b"/.", b"=/.|n|n|"),
    (b"a", b"/a", b"=/a|n|n|"),
    (b"a", b"./", b"=a/./|n|n|"),
    (b"a", b"..", b"=a/..|n|n|"),
];

pub(crate) fn pairs_1() -> &'static [Pair] {
    PAIRS_1
}

const PAIRS_2: &[Pair] = &[
    (b"a", b".a", b"=a/.a|n|n|"),
    (b"a", b"a/", b"=a/a/|y|y|"),
    (b"a", b"a.", b"=a/a.|n|n|"),
    (b"a", b"aa", b"=a/aa|n|n|"),
    (b"//", b"", b"=//|y|y|"),
    (b"//", b"/", b"=/|y|y|"),
    (b"//", b".", b"=//.|n|n|"),
    (b"//", b"a", b"=//a|n|n|"),
    (b"//", b"//", b"=//|y|y|"),
    (b"//", b"/.", b"=/.|y|y|"),
    (b"//", b"/a", b"=/a|n|n|"),
    (b"//", b"./", b"=//./|n|n|"),
    (b"//", b"..", b"=//..|n|n|"),
    (b"//", b".a", b"=//.a|n|n|"),
    (b"//", b"a/", b"=//a/|n|n|"),
    (b"//", b"a.", b"=//a.|n|n|"),
    (b"//", b"aa", b"=//aa|n|n|"),
    (b"/.", b"", b"=/./|y|y|"),
    (b"/.", b"/", b"=/|y|y|"),
    (b"/.", b".", b"=/./.|n|n|"),
    (b"/.", b"a", b"=/./a|n|n|"),
    (b"/.", b"//", b"=//|y|y|"),
    (b"/.", b"/.", b"=/.|y|y|"),
    (b"/.", b"/a", b"=/a|n|n|"),
];

pub(crate) fn pairs_2() -> &'static [Pair] {
    PAIRS_2
}

const PAIRS_3: &[Pair] = &[
    (b"/.", b"./", b"=/././|n|n|"),
    (b"/.", b"..", b"=/./..|n|n|"),
    (b"/.", b".a", b"=/./.a|n|n|"),
    (b"/.", b"a/", b"=/./a/|n|n|"),
    (b"/.", b"a.", b"=/./a.|n|n|"),
    (b"/.", b"aa", b"=/./aa|n|n|"),
    (b"/a", b"", b"=/a/|y|y|"),
    (b"/a", b"/", b"=/|y|n|"),
    (b"/a", b".", b"=/a/.|n|n|"),
    (b"/a", b"a", b"=/a/a|n|y|"),
    (b"/a", b"//", b"=//|y|n|"),
    (b"/a", b"/.", b"=/.|y|n|"),
    (b"/a", b"/a", b"=/a|y|y|"),
    (b"/a", b"./", b"=/a/./|n|n|"),
    (b"/a", b"..", b"=/a/..|n|n|"),
    (b"/a", b".a", b"=/a/.a|n|n|"),
    (b"/a", b"a/", b"=/a/a/|n|y|"),
    (b"/a", b"a.", b"=/a/a.|n|n|"),
    (b"/a", b"aa", b"=/a/aa|n|n|"),
    (b"./", b"", b"=./|y|y|"),
    (b"./", b"/", b"=/|n|n|"),
    (b"./", b".", b"=./.|y|y|"),
    (b"./", b"a", b"=./a|n|n|"),
    (b"./", b"//", b"=//|n|n|"),
];

pub(crate) fn pairs_3() -> &'static [Pair] {
    PAIRS_3
}

const PAIRS_4: &[Pair] = &[
    (b"./", b"/.", b"=/.|n|n|"),
    (b"./", b"/a", b"=/a|n|n|"),
    (b"./", b"./", b"=././|y|y|"),
    (b"./", b"..", b"=./..|n|n|"),
    (b"./", b".a", b"=./.a|n|n|"),
    (b"./", b"a/", b"=./a/|n|n|"),
    (b"./", b"a.", b"=./a.|n|n|"),
    (b"./", b"aa", b"=./aa|n|n|"),
    (b"..", b"", b"=../|y|y|"),
    (b"..", b"/", b"=/|n|n|"),
    (b"..", b".", b"=../.|n|n|"),
    (b"..", b"a", b"=../a|n|n|"),
    (b"..", b"//", b"=//|n|n|"),
    (b"..", b"/.", b"=/.|n|n|"),
    (b"..", b"/a", b"=/a|n|n|"),
    (b"..", b"./", b"=.././|n|n|"),
    (b"..", b"..", b"=../..|y|y|"),
    (b"..", b".a", b"=../.a|n|n|"),
    (b"..", b"a/", b"=../a/|n|n|"),
    (b"..", b"a.", b"=../a.|n|n|"),
    (b"..", b"aa", b"=../aa|n|n|"),
    (b".a", b"", b"=.a/|y|y|"),
    (b".a", b"/", b"=/|n|n|"),
    (b".a", b".", b"=.a/.|n|n|"),
];

pub(crate) fn pairs_4() -> &'static [Pair] {
    PAIRS_4
}

const PAIRS_5: &[Pair] = &[
    (b".a", b"a", b"=.a/a|n|n|"),
    (b".a", b"//", b"=//|n|n|"),
    (b".a", b"/.", b"=/.|n|n|"),
    (b".a", b"/a", b"=/a|n|n|"),
    (b".a", b"./", b"=.a/./|n|n|"),
    (b".a", b"..", b"=.a/..|n|n|"),
    (b".a", b".a", b"=.a/.a|y|y|"),
    (b".a", b"a/", b"=.a/a/|n|n|"),
    (b".a", b"a.", b"=.a/a.|n|n|"),
    (b".a", b"aa", b"=.a/aa|n|n|"),
    (b"a/", b"", b"=a/|y|y|"),
    (b"a/", b"/", b"=/|n|n|"),
    (b"a/", b".", b"=a/.|n|n|"),
    (b"a/", b"a", b"=a/a|y|y|"),
    (b"a/", b"//", b"=//|n|n|"),
    (b"a/", b"/.", b"=/.|n|n|"),
    (b"a/", b"/a", b"=/a|n|n|"),
    (b"a/", b"./", b"=a/./|n|n|"),
    (b"a/", b"..", b"=a/..|n|n|"),
    (b"a/", b".a", b"=a/.a|n|n|"),
    (b"a/", b"a/", b"=a/a/|y|y|"),
    (b"a/", b"a.", b"=a/a.|n|n|"),
    (b"a/", b"aa", b"=a/aa|n|n|"),
    (b"a.", b"", b"=a./|y|y|"),
];

pub(crate) fn pairs_5() -> &'static [Pair] {
    PAIRS_5
}

const PAIRS_6: &[Pair] = &[
    (b"a.", b"/", b"=/|n|n|"),
    (b"a.", b".", b"=a./.|n|n|"),
    (b"a.", b"a", b"=a./a|n|n|"),
    (b"a.", b"//", b"=//|n|n|"),
    (b"a.", b"/.", b"=/.|n|n|"),
    (b"a.", b"/a", b"=/a|n|n|"),
    (b"a.", b"./", b"=a././|n|n|"),
    (b"a.", b"..", b"=a./..|n|n|"),
    (b"a.", b".a", b"=a./.a|n|n|"),
    (b"a.", b"a/", b"=a./a/|n|n|"),
    (b"a.", b"a.", b"=a./a.|y|y|"),
    (b"a.", b"aa", b"=a./aa|n|n|"),
    (b"aa", b"", b"=aa/|y|y|"),
    (b"aa", b"/", b"=/|n|n|"),
    (b"aa", b".", b"=aa/.|n|n|"),
    (b"aa", b"a", b"=aa/a|n|n|"),
    (b"aa", b"//", b"=//|n|n|"),
    (b"aa", b"/.", b"=/.|n|n|"),
    (b"aa", b"/a", b"=/a|n|n|"),
    (b"aa", b"./", b"=aa/./|n|n|"),
    (b"aa", b"..", b"=aa/..|n|n|"),
    (b"aa", b".a", b"=aa/.a|n|n|"),
    (b"aa", b"a/", b"=aa/a/|n|n|"),
    (b"aa", b"a.", b"=aa/a.|n|n|"),
];

pub(crate) fn pairs_6() -> &'static [Pair] {
    PAIRS_6
}

const PAIRS_7: &[Pair] = &[
    (b"aa", b"aa", b"=aa/aa|y|y|"),
    (b"/usr/lib", b"/usr", b"=/usr|y|n|"),
    (b"/usr/lib", b"/usr/", b"=/usr/|y|n|"),
    (b"/usr/lib", b"/us", b"=/us|n|n|"),
    (b"/usr//./lib/", b"/usr/lib", b"=/usr/lib|y|y|"),
    (b"/usr/lib", b"usr", b"=/usr/lib/usr|n|n|"),
    (b"/usr/lib", b"lib", b"=/usr/lib/lib|n|y|"),
    (b"/usr/lib", b"ib", b"=/usr/lib/ib|n|n|"),
    (b"/usr/lib", b"usr/lib", b"=/usr/lib/usr/lib|n|y|"),
    (b"/usr/lib", b"usr/lib/.", b"=/usr/lib/usr/lib/.|n|y|"),
    (b"/usr/lib", b"/usr/lib/c", b"=/usr/lib/c|n|n|"),
    (b"/usr/lib", b"usr/lib/c", b"=/usr/lib/usr/lib/c|n|n|"),
    (b"a/b/c", b"b", b"=a/b/c/b|n|n|"),
    (b"a/b/c", b"b/c", b"=a/b/c/b/c|n|y|"),
    (b"a/b/c", b"a/c", b"=a/b/c/a/c|n|n|"),
    (b"a/b/c", b"a/b/c", b"=a/b/c/a/b/c|y|y|"),
    (b"a/b/../c", b"a/c", b"=a/b/../c/a/c|n|n|"),
    (b"a/b/../c", b"../c", b"=a/b/../c/../c|n|y|"),
    (b"a/b/../c", b"a/b/..", b"=a/b/../c/a/b/..|y|n|"),
    (b"./a", b"a", b"=./a/a|n|y|"),
    (b"./a", b"./a", b"=./a/./a|y|y|"),
    (b"b/./a", b"./a", b"=b/./a/./a|n|n|"),
    (b"a.txt", b"a", b"=a.txt/a|n|n|"),
    (b"a.txt", b"txt", b"=a.txt/txt|n|n|"),
];

pub(crate) fn pairs_7() -> &'static [Pair] {
    PAIRS_7
}

const PAIRS_8: &[Pair] = &[
    (b"/a", b"/", b"=/|y|n|"),
    (b"/", b"//", b"=//|y|y|"),
    (b"\xFF/a", b"\xFF", b"=\xFF/a/\xFF|y|n|"),
    (b"\xFF/a", b"a", b"=\xFF/a/a|n|y|"),
    (b"\xC3\xA9", b"\xC3", b"=\xC3\xA9/\xC3|n|n|"),
    (
        b"0123456789/0123456789",
        b"ab",
        b"=0123456789/0123456789/ab|n|n|",
    ),
    (
        b"0123456789/0123456789",
        b"abc",
        b"=0123456789/0123456789/abc|n|n|",
    ),
    (b"0123456789/0123456789/", b"/abc", b"=/abc|n|n|"),
];

pub(crate) fn pairs_8() -> &'static [Pair] {
    PAIRS_8
}
