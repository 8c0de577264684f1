// Numbers and names among the values.
ghost use Rattle.std.specs.Prelude.{◌≡◌, ◌≤◌, ℕ, Some, IfSome, IfNone};
ghost use Rattle.command_line.specs.Commands.{IsNumber, graph_word};
ghost use Rattle.command_line.specs.declared.command.Graph.{Graph};

use crate::command::Graph;

/// The number from 1 to `most` that the text writes in decimal digits.
pub fn number_in(text: &str, most: u64) -> Option<u64>
    ensures some { IfSome result (λ number. IsNumber text.now most number) }
    ensures none { IfNone result ((number : ℕ) → IsNumber text.now most number → ⊥) }
{
    if text.as_bytes().first() == Some(&b'+') {
        return None;
    }
    match text.parse::<u64>() {
        Ok(number) if 1 <= number && number <= most => Some(number),
        _ => None,
    }
}

/// The graph that the text names.
pub fn graph_in(text: &str) -> Option<Graph>
    ensures some { IfSome result (λ graph. text.now ≡ graph_word graph) }
    ensures none { IfNone result ((graph : Graph) → text.now ≡ graph_word graph → ⊥) }
{
    if text == "auto" {
        return Some(Graph::Auto);
    }
    if text == "wfg" {
        return Some(Graph::Wfg);
    }
    if text == "sg" {
        return Some(Graph::Sg);
    }
    if text == "grg" {
        return Some(Graph::Grg);
    }
    None
}
