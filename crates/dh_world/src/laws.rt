//! Laws of the definitions, for every world.
ghost use Rattle.std.specs.Prelude.{◌≡◌, Option};
ghost use Rattle.dh_world.specs.declared.caller.Caller.{Caller};
ghost use Rattle.dh_world.specs.World.{Text, World};
ghost use Rattle.dh_world.specs.Seen.{seen, veil};
ghost use Rattle.dh_world.specs.Retries.{FirstIsKept, KeptStays, KeptIsAnswered, AnswersForGood};

/// A caller sees the same in a world that holds nothing but what he sees there: no other project, no private version that his pass does not open, no key and no other pass.
pub fn veil_law()
    ensures { (w : World) (host : Option Text) (caller : Caller)
        → seen (veil w host caller) host caller ≡ seen w host caller }
{}

/// The answer of an accepted push or upload is kept under its retry key.
pub fn first_is_kept()
    ensures { FirstIsKept }
{}

/// An answer that is kept stays kept, whatever command comes.
pub fn kept_stays()
    ensures { KeptStays }
{}

/// A push or an upload under a retry key that is kept gives the answer that is kept, and changes nothing.
pub fn kept_is_answered()
    ensures { KeptIsAnswered }
{}

/// A push or an upload that was accepted may be sent again at any time: it gives its first answer, and changes nothing.
pub fn answers_for_good()
    ensures { AnswersForGood }
{}
