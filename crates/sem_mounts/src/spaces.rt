//! Spaces: where the documents of mounts come from.
ghost use Rattle.std.specs.Prelude.{◌≡◌, ◌++◌, ◌∷◌, [], IfOk, IfSome, false, if◌then◌else◌, is_ok};
ghost use Rattle.std.specs.Prelude.{map};
ghost use Rattle.std.specs.Option.{option_map};
ghost use Rattle.hac_outside.specs.Known.{Known};
ghost use Rattle.hac_model.specs.Spaces.Answering.{AreRisingNames, names_with, text_at};
ghost use Rattle.hac_model.specs.Spaces.Catalogue.{names};
ghost use Rattle.sem_mounts.specs.Seen.{AreAsked, Attaches, CountsFault, IsSaid, SpacesSeen};
ghost use Rattle.sem_mounts.specs.Seen.{is_attach_failed, is_attached};

use crate::faults::{AttachFault, SpaceFault};
use hac_model::{Name, Term};

/// Spaces by their names, each with documents that a file gives when the space is attached.
pub trait Spaces {
    // Spaces that tell their contents go on telling them.
    ghost seen: { Self → SpacesSeen };

    /// Attaches a space of this name, with the documents of a file. A name that is attached may not
    /// be attached again.
    fn attach(&mut self, name: &Name, file: &str) -> Result<(), AttachFault>
        requires { is_attached (seen self.old) name.now ≡ false }
        ensures attached { (seen self.new).attached
            ≡ (if is_ok result then (seen self.old).attached ++ name.now ∷ []
            else (seen self.old).attached) }
        ensures contents { Known (Attaches name.now file.now result)
            (seen self.old).contents (seen self.new).contents }
        ensures cause { CountsFault (is_attach_failed result)
            (seen self.old).faults (seen self.new).faults };

    /// The names of the documents of a space, rising.
    fn list(&mut self, name: &Name) -> Result<Vec<Name>, SpaceFault>
        ensures asked { AreAsked (seen self.old) (seen self.new) name.now result }
        ensures rising { IfOk result (λ found. AreRisingNames found.items) }
        ensures said { IfOk result (λ found. IsSaid (seen self.old) name.now names found.items) };

    /// The names of those of its documents whose text has the term, rising.
    fn search(&mut self, name: &Name, term: &Term) -> Result<Vec<Name>, SpaceFault>
        ensures asked { AreAsked (seen self.old) (seen self.new) name.now result }
        ensures said { IfOk result (λ found. IsSaid (seen self.old) name.now
            (λ documents. names_with documents term.now) found.items) };

    /// The text of one of its documents, or none where there is no document of that name.
    fn fetch(&mut self, name: &Name, document: &Name) -> Result<Option<Vec<u8>>, SpaceFault>
        ensures asked { AreAsked (seen self.old) (seen self.new) name.now result }
        ensures said { IfOk result (λ text. IsSaid (seen self.old) name.now
            (λ documents. text_at documents document.now) (option_map (λ text. text.items) text)) };

    // The spaces that are attached are those whose documents are told.
    ghost told: { (spaces : Self) → IfSome (seen spaces).contents (λ contents.
        (seen spaces).attached ≡ map (λ space. space.0) contents.spaces) };
}
