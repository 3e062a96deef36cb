//! Laws of the bytes of commands and replies. Each is the contract of a function that does nothing.

ghost use Rattle.std.specs.Prelude.{◌≡◌, ◌≤◌, ◌⊎◌, ℕ, List};
ghost use Rattle.strat_model.specs.declared.replies.Refusal.{Refusal};
ghost use Rattle.strat_model.specs.declared.replies.Refusal.TheVariants as why;
ghost use Rattle.strat_model.specs.Answer.{Answer, refusal};
ghost use Rattle.strat_model.specs.Request.{Request};
ghost use Rattle.strat_model.specs.Run.{Position, Response, Answers};
ghost use Rattle.strat_model.specs.Spelling.{HasForm, Spells, IsRefusedAs, SpellsReply, tag_of};

/// A body has the form of one command under one tag, which is the body's.
pub fn bodies_have_one_command()
    ensures ok { (body : List ℕ) (tag other_tag : ℕ) (request other : Request)
        → HasForm body tag request → HasForm body other_tag other
        → (tag ≡ other_tag) × (request ≡ other) }
    ensures found { (body : List ℕ) (tag : ℕ) (request : Request)
        → HasForm body tag request → tag ≡ tag_of body }
{}

/// A body is refused for one reason under one tag, and no command is refused so.
pub fn bodies_are_refused_for_one_reason()
    ensures ok { (body : List ℕ) (tag other_tag : ℕ) (cause other : Refusal)
        → IsRefusedAs body tag cause → IsRefusedAs body other_tag other
        → (tag ≡ other_tag) × (cause ≡ other) }
    ensures none { (body : List ℕ) (tag other_tag : ℕ) (request : Request) (cause : Refusal)
        → Spells body tag request → IsRefusedAs body other_tag cause → ⊥ }
{}

/// Two answers that a body may get at one position are the same and lead to one table, and to one position where one region
/// of the journal is in use; but for want of memory, which changes nothing.
pub fn bodies_have_one_answer()
    ensures { (mem : ℕ) (at : Position) (body : List ℕ)
        (response other : Response) (after others : Position)
        → Answers mem at body response after → Answers mem at body other others
        → ((response ≡ other) × (after.table ≡ others.table)
        × (at.fill ≤ mem → after.fill ≤ mem → others.fill ≤ mem → after ≡ others))
        ⊎ ((response.answer ≡ refusal why.NoMemory) × (after ≡ at))
        ⊎ ((other.answer ≡ refusal why.NoMemory) × (others ≡ at)) }
{}

/// A body is that of one reply and tag.
pub fn bodies_have_one_reply()
    ensures { (body : List ℕ) (tag other_tag : ℕ) (answer other : Answer)
        → SpellsReply body tag answer → SpellsReply body other_tag other
        → (tag ≡ other_tag) × (answer ≡ other) }
{}
