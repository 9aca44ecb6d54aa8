// The words of the command.
ghost use Rattle.std.specs.Prelude.{◌≡◌, ◌↔◌, IsTrue, ℕ, IfSome, IfNone, decimal};
ghost use Rattle.ddpsh.specs.Commands.{IsClusters, Asks, AsksFormat, usage};
ghost use Rattle.ddpsh.specs.declared.commands.Command.{Command};

use cmdlet_line::Words;
use itoa::Buffer;
use volume_inside::{LEAST_CLUSTERS, MOST_CLUSTERS};

/// What the words of the command ask.
#[derive(Clone, Copy, Debug, PartialEq, Eq)]
pub enum Command {
    /// The image is mounted.
    Mount,
    /// A fresh volume of so many clusters is made on the image.
    Format(u32),
}

/// What is printed where the words are not those of the command.
pub(crate) const fn usage() -> &'static [u8]
    ensures { result.now ≡ usage }
{
    b"usage: ddpsh IMAGE [--format CLUSTERS] [--volume V] [--turns N] [--cores N]\n"
}

/// What the words ask, if they are those of the command.
pub fn command_of(words: &Words) -> Option<Command>
    ensures some { IfSome result (λ command. Asks words.now command) }
    ensures none { IfNone result ((command : Command) → Asks words.now command → ⊥) }
{
    match words.len() {
        1 => Some(Command::Mount),
        3 => match (words.at(1), words.at(2)) {
            (Some(option), Some(word)) => format_of(option, word),
            _ => None,
        },
        _ => None,
    }
}

/// What the two words behind the image ask.
fn format_of(option: &str, word: &str) -> Option<Command>
    ensures some { IfSome result (λ command. AsksFormat option.now word.now command) }
    ensures none { IfNone result ((command : Command) → AsksFormat option.now word.now command → ⊥) }
{
    if option != "--format" {
        return None;
    }
    match clusters_of(word) {
        None => None,
        Some(clusters) => Some(Command::Format(clusters)),
    }
}

/// The number of clusters that the word writes, if a volume may have as many.
fn clusters_of(word: &str) -> Option<u32>
    ensures some { IfSome result (λ n. IsClusters word.now n) }
    ensures none { IfNone result ((n : ℕ) → IsClusters word.now n → ⊥) }
{
    let Ok(clusters) = word.parse::<u32>() else {
        return None;
    };
    if clusters < LEAST_CLUSTERS {
        return None;
    }
    if clusters > MOST_CLUSTERS {
        return None;
    }
    if !is_decimal(word, clusters) {
        return None;
    }
    Some(clusters)
}

/// Does the word write the number without a sign or a leading zero?
fn is_decimal(word: &str, n: u32) -> bool
    ensures { IsTrue result ↔ (word.now ≡ decimal n) }
{
    let mut digits = Buffer::new();
    digits.format(n) == word
}
