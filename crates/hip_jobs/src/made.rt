//! Input that is made of a seed: numbers by a linear congruence (Knuth's constants), words of syllables, and texts of lines that are drawn
//! from a stock, so that an input costs little beside what is done with it.
ghost use Rattle.std.specs.Prelude.{◌<◌, ◌≤◌, ◌^◌};

use std::alloc::{AllocError, Global};

/// Numbers that look random, the same for the same seed.
#[derive(Drop)]
pub(crate) struct Numbers {
    state: u64,
}

impl Numbers {
    pub(crate) fn new(seed: u64) -> Self {
        Numbers {
            state: seed.wrapping_mul(0x9E37_79B9_7F4A_7C15),
        }
    }

    /// A number of 31 bits.
    pub(crate) fn next(&mut self) -> u64
        ensures { result < 2 ^ 31 }
    {
        self.state = self
            .state
            .wrapping_mul(6364136223846793005)
            .wrapping_add(1442695040888963407);
        self.state >> 33
    }

    /// A number below another.
    pub(crate) fn below(&mut self, limit: usize) -> usize
        requires { 0 < limit }
        ensures { result < limit }
    {
        self.next() as usize % limit
    }

    /// Whether one of so many comes.
    pub(crate) fn one_in(&mut self, count: usize) -> bool
        requires { 0 < count }
    {
        self.below(count) == 0
    }

    /// A number of at most so many bits, each length as likely as any other: by Zipf's law, nearly.
    pub(crate) fn by_zipf(&mut self, bits: usize) -> usize
        requires some { 0 < bits }
        requires most { bits ≤ 30 }
    {
        let bits = self.below(bits) + 1;
        self.below(1 << bits)
    }
}

/// Syllables of Latin letters.
pub(crate) const LATIN: &[&str] = &[
    "a", "be", "con", "der", "e", "for", "ge", "hi", "in", "ka", "lo", "men", "no", "or", "pre",
    "qu", "ra", "st", "ti", "un", "ver", "wa", "xy", "yo",
];

/// Syllables of Cyrillic letters.
pub(crate) const CYRILLIC: &[&str] = &[
    "а", "во", "го", "де", "ени", "за", "ка", "ли", "мо", "на", "ост", "пре", "ро", "ст", "то",
    "ще",
];

/// A thousand letters.
const LETTERS: &str =
    "kembcdlbgbcnnchcnbdhbmbhbejnedjfdgldcbgpnkooljhfhcjpkojcdnfkepnbckklpoccipcbjojmlaolfdpbgjehmmpcfomi\
eninlmhecfehhapfijaenlkebommmmdpmbgcgofdkbdaedlacgmeillpddpoppjcedkipfagleajcilflhkhghmhgplaaipiglol\
lchdhpgkgpaplcdmgpfnkcmomcffeaeoepleeaadenggaigjhkinebloneeaofaefepdbkpdbhgibdoacokgiophigoendmokchn\
cgjdeleieohdmpfhfnmknglkclakooamkjcdhdciibfienimepkcibfnciacichcidoakniebhdfibfgjjgjofilaibaagphodnp\
mjghkgemlbeacinfbcmjhjboffioailkkhbjglfakmcpighacicembmajjhcemkpejebneahcabeldmobahpiaocccpicihghopm\
cpjbgcekijeapbpidgpjjooodgjcpajocoimggcceileidlhppmafapomjenlmkdkakkmdgajilcmmclnibidbjehinkglnamgcb\
noejpbefpnkjjiimhjpmdffcgphokoneghcfkckhliganmngmikbpilegcihmmonjaebnppacmoohdheedocbaehbjeinddcjgmi\
haajoikhphhanjbagpncihnlhpbknlmgajcgpgjghohijdpfhpnbembgaenbbfmokdcfkgfobjmlkofdaciclndgmljncbpglogk\
lpanhmbmbocbigcklikbikijacahdpominpepfajehkkolcgmfhncbpkfndcicgdnpofhenohdjjiiliigohfhhejgkcmihhdobd\
apholbjhdbggclfoiadlgblkebgibgaknlfjcgbppcndmecfminjjnbjlnnalgmmganfndcmlofeabemclfeljffcdmpgjebpkbm";

/// One text of a stock, or none where there is none.
pub(crate) fn drawn<'s>(numbers: &mut Numbers, stock: &'s [String]) -> &'s str {
    if stock.is_empty() {
        return "";
    }
    stock[numbers.below(stock.len())].as_str()
}

/// Adds a word of 1 to `most` syllables.
pub(crate) fn push_word(
    text: &mut String,
    numbers: &mut Numbers,
    syllables: &[&str],
    most: usize,
) -> Result<(), AllocError>
    requires { 0 < most }
{
    if syllables.is_empty() {
        return Ok(());
    }
    let count = numbers.below(most);
    for _ in 0..=count {
        text.push_str(syllables[numbers.below(syllables.len())])?;
    }
    Ok(())
}

/// Adds so many letters `a` to `p`, four at a time.
pub(crate) fn push_letters(
    text: &mut String,
    numbers: &mut Numbers,
    count: usize,
) -> Result<(), AllocError> {
    for _ in 0..count / 4 {
        push_few(text, numbers, 4)?;
    }
    push_few(text, numbers, count % 4)
}

/// Adds up to four letters, from somewhere in [`LETTERS`].
fn push_few(text: &mut String, numbers: &mut Numbers, count: usize) -> Result<(), AllocError>
    requires { count ≤ 4 }
{
    let at = numbers.below(990);
    if let Some(letters) = LETTERS.get(at..).and_then(|rest| rest.get(..count)) {
        text.push_str(letters)?;
    }
    Ok(())
}

/// A text of so many lines, drawn from a stock, each with a line feed behind it.
pub(crate) fn text_of(
    alloc: Global,
    numbers: &mut Numbers,
    stock: &[String],
    lines: usize,
) -> Result<String, AllocError> {
    let mut text = String::new(alloc);
    for _ in 0..lines {
        text.push_str(drawn(numbers, stock))?;
        text.push('\n')?;
    }
    Ok(text)
}
