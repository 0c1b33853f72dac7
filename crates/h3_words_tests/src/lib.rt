//! The tests of `h3_words`: what command lines parse as, what is said of invalid ones, and help.
#![tactic(auto)]

#[cfg(test)]
mod commands;
#[cfg(test)]
mod expected;
#[cfg(test)]
mod file_words;
#[cfg(test)]
mod help;
#[cfg(test)]
mod help_texts;
#[cfg(test)]
mod refused_rows;
#[cfg(test)]
mod refused_words;
#[cfg(test)]
mod rows_words;
#[cfg(test)]
mod said_of_rows;
#[cfg(test)]
mod second_field_words;
#[cfg(test)]
mod table_words;
#[cfg(test)]
mod value_words;
#[cfg(test)]
mod words;
