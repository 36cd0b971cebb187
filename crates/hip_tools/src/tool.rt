//! Which tool the arguments name.
use crate::fault::Fault;

pub(crate) const USAGE: &str =
    "usage: hip_tools TOOL, from standard input to standard output, where TOOL is\n\
    \n  tokens             the tokens, one a line: where it begins, its class and its text\
    \n  table COLUMN       the cells of a column of a table, whose fields stand between commas\
    \n  fill NAME=VALUE .. the text, with VALUE in place of each {{NAME}}\
    \n  count              the words and how often each comes, the most frequent first";

#[derive(Clone, Copy)]
pub(crate) enum Tool<'a> {
    Tokens,
    /// The column's name.
    Table(&'a str),
    /// The arguments `NAME=VALUE`.
    Fill(&'a [String]),
    Count,
}

impl<'a> Tool<'a> {
    /// The tool that these words name.
    pub(crate) fn read(words: &'a [String]) -> Result<Self, Fault> {
        let Some((name, words)) = words.split_first() else {
            return Err(Fault::Usage);
        };
        match (name.as_str(), words) {
            ("tokens", []) => Ok(Tool::Tokens),
            ("table", [column]) => Ok(Tool::Table(column.as_str())),
            ("fill", values) if values.iter().all(|value| value.as_str().contains('=')) => {
                Ok(Tool::Fill(values))
            }
            ("count", []) => Ok(Tool::Count),
            _ => Err(Fault::Usage),
        }
    }
}
