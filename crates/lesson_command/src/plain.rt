// The commands of a name and numbers of 32 bits.
use crate::{BadLine, Command, ROOM, handle};
use def_kinds::{Edge, Flags, Island};

pub fn plain_command<'a>(name: &str, numbers: &[u32]) -> Result<Command<'a>, BadLine> {
    Ok(match (name, numbers) {
        ("reset", []) => Command::Reset,
        ("put", &[s, g, f, e, z]) => Command::Put(handle(s, g), flags(f, e, z)?),
        ("retire", &[s, g]) => Command::Retire(handle(s, g)),
        ("flags", &[s, g, f, e, z]) => Command::Flags(handle(s, g), flags(f, e, z)?),
        ("island", &[s, g]) => Command::Island(handle(s, g)),
        ("ensure", &[s, g]) => Command::Ensure(handle(s, g)),
        ("remove", &[s, g]) => Command::Remove(handle(s, g)),
        ("dump", []) => Command::Dump,
        ("contact", &[e, s1, g1, s2, g2]) => {
            Command::Contact(Edge(e), handle(s1, g1), handle(s2, g2))
        }
        ("uncontact", &[e]) => Command::Uncontact(Edge(e)),
        ("renumber", &[removed, last]) => Command::Renumber {
            removed: Edge(removed),
            last: Edge(last),
        },
        ("resolve", []) => Command::Resolve,
        ("split", &[i]) => Command::Split(Island(i)),
        ("maybid", &[i]) => Command::MayBid(Island(i)),
        ("schedule", &[i]) => Command::Schedule(Island(i)),
        ("run", []) => Command::Run,
        ("begin", []) => Command::Begin,
        ("observe", &[i, e]) => Command::Observe {
            island: Island(i),
            eligible: flag(e)?,
        },
        ("finish", []) => Command::Finish { room: ROOM },
        ("finish", &[room]) if room <= ROOM => Command::Finish { room },
        ("sleep", &[i]) => Command::Sleep(Island(i)),
        ("wake", &[i]) => Command::Wake(Island(i)),
        _ => return Err(BadLine),
    })
}

fn flags(fixed: u32, enabled: u32, sleeping: u32) -> Result<Flags, BadLine> {
    Ok(Flags {
        fixed: flag(fixed)?,
        enabled: flag(enabled)?,
        sleeping: flag(sleeping)?,
    })
}

fn flag(word: u32) -> Result<bool, BadLine> {
    match word {
        0 => Ok(false),
        1 => Ok(true),
        _ => Err(BadLine),
    }
}
