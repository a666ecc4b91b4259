//! What a search looks for, as words.

use ivy_explain::ScopeFailure;
use ivy_program::{parse_number, words_of};
use ivy_replay::Goal;
use std::alloc::Global;

/// What four words ask for.
fn goal_of(words: &[&str]) -> Option<Goal> {
    match *words {
        ["node", node, "prints", value] => Some(Goal {
            node: parse_number(node)?,
            value: parse_number(value)?,
        }),
        _ => None,
    }
}

/// Adds what words ask for that `and` joins.
fn add_goals<'a>(
    goals: &mut Vec<Goal>,
    words: &[&str],
    text: &'a str,
) -> Result<(), ScopeFailure<'a>> {
    for part in words.split(|word| *word == "and") {
        match goal_of(part) {
            Some(goal) => goals.push(goal)?,
            None => return Err(ScopeFailure::NoGoal(text)),
        }
    }
    Ok(())
}

/// Adds what a text asks for.
fn read_goals<'a>(
    alloc: Global,
    goals: &mut Vec<Goal>,
    text: &'a str,
) -> Result<(), ScopeFailure<'a>> {
    let words = words_of(alloc, text)?;
    add_goals(goals, &words, text)
}

/// What is asked for: `node I prints X`, more of them joined by `and`; nothing where there is no text.
pub(crate) fn goals_of(alloc: Global, text: Option<&str>) -> Result<Vec<Goal>, ScopeFailure<'_>> {
    let mut goals = Vec::new(alloc);
    let Some(text) = text else {
        return Ok(goals);
    };
    match read_goals(alloc, &mut goals, text) {
        Ok(()) => Ok(goals),
        Err(failure) => Err(failure),
    }
}
