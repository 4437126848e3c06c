//! The name with which an end of a conversation introduces itself.
ghost use Rattle.std.specs.Prelude.{◌≡◌, ◌≤◌, ◌++◌, ◌-◌, true, length, replicate, take};
ghost use Rattle.git_msg.specs.AgentNames.{is_agent};

// The maximum length of a name in bytes.
const LONGEST: usize = 63;

/// The name of a program, as the capability `agent` of gitprotocol-v2(5) has it: 1 to 63 printable ASCII characters, none of
/// them a space.
#[derive(Clone, Copy, Debug, PartialEq, Eq)]
pub struct Agent {
    length: u8,
    // The bytes after the name are zero.
    bytes: [u8; LONGEST],
    ghost fits: { length ≤ 63 },
    ghost named: { is_agent (take length bytes) ≡ true },
}

impl Agent {
    ghost use Rattle.std.specs.Prelude.{false, MatchOption};
    ghost use Rattle.git_msg.specs.Agents.{agent_text, own_agent};

    /// The agent of this name. None if the text is not such a name.
    pub fn new(text: &[u8]) -> Option<Agent>
        ensures { MatchOption result (is_agent text.now ≡ false) (λ agent. agent_text agent ≡ text.now) }
    {
        if !is_agent(text) {
            return None;
        }
        Some(Agent {
            length: text.len() as u8,
            bytes: padded(text),
        })
    }

    /// This library's own name, `git2/1`.
    pub fn own() -> Agent
        ensures { result ≡ own_agent }
    {
        Agent {
            length: 6,
            bytes: padded(b"git2/1"),
        }
    }

    /// The name.
    pub fn text(&self) -> &[u8]
        ensures text { result.now ≡ agent_text self.now }
        ensures named { is_agent result.now ≡ true }
    {
        &self.bytes[..self.length as usize]
    }
}

// Whether the text is the name of an agent.
fn is_agent(text: &[u8]) -> bool
    ensures { result ≡ is_agent text.now }
{
    if text.is_empty() {
        return false;
    }
    if text.len() > LONGEST {
        return false;
    }
    text.iter().all(|byte| byte.is_ascii_graphic())
}

// The text, and zeros after it.
fn padded(text: &[u8]) -> [u8; LONGEST]
    requires { length text.now ≤ 63 }
    ensures { result ≡ text.now ++ replicate (63 - length text.now) 0 }
{
    let mut bytes = [0; LONGEST];
    bytes[..text.len()].copy_from_slice(text);
    bytes
}
