//! The printed texts of the uses, that their calls succeed where there is memory, and values that come from elsewhere. Each use has a table,
//! whose rows one loop runs on either backend.
mod intern;
mod queue;
mod seeded;
mod support;
mod table;
mod template;
mod tokens;
