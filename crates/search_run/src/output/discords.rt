//! The text of discords, line by line, in the form of the lines of answers.

ghost use Rattle.std.specs.Prelude.{◌≡◌, IfOk};
ghost use Rattle.search_run.specs.DiscordLines.{discord_lines};

use discord_query::DiscordList;
use outside::NoMemory;
use run_traffic::push_line;
use std::alloc::Global;

/// The lines of discords, from rank 1 on.
pub fn discord_text(alloc: Global, discords: &DiscordList) -> Result<Vec<u8>, NoMemory>
    ensures { IfOk result (λ text. text.items ≡ discord_lines 1 discords.now) }
{
    let mut text = Vec::new(alloc);
    let mut rank = 1u64;
    for discord in &discords.items {
        let number = u64::from(discord.number);
        let neighbour = u64::from(discord.neighbour);
        push_line(&mut text, rank, &[number, discord.distance, neighbour])?;
        rank += 1;
    }
    Ok(text)
}
