//! What one answer says.

ghost use Rattle.std.specs.Prelude.{◌≡◌, ◌<◌, ◌↔◌, ◌++◌, ◌∷◌, [], IfSome, IsTrue, OnOk, is_some, length, map, position, string_bytes, vec_len};
ghost use Rattle.std.specs.Str.{bytes_eq};
ghost use Rattle.dukpt.specs.inner.Answer.{place_of, said, with_text};
ghost use Rattle.dukpt.specs.inner.Members.{member_of};

use std::alloc::{AllocError, Global};

/// A name, and the texts that stand under it.
#[derive(Drop)]
pub(crate) struct Member {
    pub(crate) name: String,
    pub(crate) texts: Vec<String>,
}

/// An answer: its members, in the order in which their names came.
#[derive(Drop)]
pub(crate) struct Answer {
    alloc: Global,
    pub(crate) members: Vec<Member>,
}

impl Answer {
    /// An answer that says nothing yet.
    pub(crate) fn new(alloc: Global) -> Self
        ensures { map member_of result.members.items ≡ [] }
    {
        Answer {
            alloc,
            members: Vec::new(alloc),
        }
    }

    /// Whether it says nothing.
    pub(crate) fn is_empty(&self) -> bool
        ensures { IsTrue result ↔ (map member_of self.now.members.items ≡ []) }
    {
        self.members.is_empty()
    }

    /// Whether it has a member of this name.
    pub(crate) fn has(&self, name: &str) -> bool
        ensures { result ≡ is_some (place_of name.now (map member_of self.now.members.items)) }
    {
        self.place(name).is_some()
    }

    /// Whether its last member has this name.
    pub(crate) fn ends_with(&self, name: &str) -> bool {
        match self.members.last() {
            Some(member) => member.name.as_str() == name,
            None => false,
        }
    }

    /// Says a text under a name.
    pub(crate) fn say(&mut self, name: &str, text: &str) -> Result<(), AllocError>
        ensures { OnOk result (map member_of self.new.members.items
            ≡ said (map member_of self.old.members.items) name.now text.now) }
    {
        let text = String::from_str(self.alloc, text)?;
        match self.place(name) {
            Some(place) => say_more(&mut self.members[place], text)?,
            None => self.say_first(name, text)?,
        }
        Ok(())
    }

    /// Says the first text under a name.
    fn say_first(&mut self, name: &str, text: String) -> Result<(), AllocError>
        ensures { OnOk result (map member_of self.new.members.items
            ≡ map member_of self.old.members.items ++ (name.now, string_bytes text ∷ []) ∷ []) }
    {
        let mut member = Member {
            name: String::from_str(self.alloc, name)?,
            texts: Vec::new(self.alloc),
        };
        member.texts.push(text)?;
        self.members.push(member)?;
        Ok(())
    }

    /// Forgets all.
    pub(crate) fn clear(&mut self)
        ensures { map member_of self.new.members.items ≡ [] }
    {
        self.members.clear();
    }

    /// The place of the member of this name.
    fn place(&self, name: &str) -> Option<usize>
        ensures value { result ≡ place_of name.now (map member_of self.now.members.items) }
        ensures bound { IfSome result (λ place. place < vec_len self.now.members) }
        ensures inside { IfSome result (λ place. place < length self.now.members.items) }
    {
        place_among(self.members.as_slice(), name)
    }
}

/// The place of the member of this name among some.
fn place_among(members: &[Member], name: &str) -> Option<usize>
    ensures value { result
        ≡ position (λ member. bytes_eq (string_bytes member.name) name.now) members.now }
    ensures bound { IfSome result (λ place. place < length members.now) }
{
    members
        .iter()
        .position(|member| member.name.as_str() == name)
}

/// Says a text more of a member.
fn say_more(member: &mut Member, text: String) -> Result<(), AllocError>
    ensures { OnOk result (member_of member.new ≡ with_text (member_of member.old) (string_bytes text)) }
{
    member.texts.push(text)?;
    Ok(())
}
