//! The event with which a round begins.

ghost use Rattle.cp_story.specs.Round.{IsEventAfter, IsFirstOfRound};

use crate::event::StoryEvent;
use crate::story::Story;

/// The event of a word's story with which a round begins, whose numbers are the last of the word, so many. None where there is no round, or
/// the story stops before it.
pub fn first_of_round(story: &Story, word: &[u8], round: usize) -> Option<usize>
    ensures { IsFirstOfRound story.now.events.items word.now round result }
{
    if round == 0 {
        return None;
    }
    let before = word.len().checked_sub(round)?;
    event_after(&story.events, before)
}

// The event after the choice with a number, counted from 0, if there is one.
fn event_after(events: &[StoryEvent], number: usize) -> Option<usize>
    ensures { IsEventAfter events.now number result }
{
    let mut choices = 0usize;
    for (place, event) in events.iter().enumerate() {
        if event.choice.is_some() {
            if choices == number {
                return Some(place);
            }
            choices += 1;
        }
    }
    None
}
