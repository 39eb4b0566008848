//! Laws of the types of this crate.
ghost use Rattle.picky_der_core.specs.Equality.{IsKept};

use crate::{
    Cause, Complaint, Element, Entry, Front, Header, LineForm, Next, Place, Reason, Rule,
    ShowOptions, Shown, Source,
};

/// A copy is the same.
pub fn copies()
    ensures header { IsKept ⟦<Header as Clone>⟧.is_clone (λ it. it) }
    ensures element { IsKept ⟦<Element as Clone>⟧.is_clone (λ it. it) }
    ensures rule { IsKept ⟦<Rule as Clone>⟧.is_clone (λ it. it) }
    ensures front { IsKept ⟦<Front as Clone>⟧.is_clone (λ it. it) }
    ensures place { IsKept ⟦<Place as Clone>⟧.is_clone (λ it. it) }
    ensures next { IsKept ⟦<Next as Clone>⟧.is_clone (λ it. it) }
    ensures complaint { IsKept ⟦<Complaint as Clone>⟧.is_clone (λ it. it) }
    ensures entry { IsKept ⟦<Entry as Clone>⟧.is_clone (λ it. it) }
    ensures cause { IsKept ⟦<Cause as Clone>⟧.is_clone (λ it. it) }
    ensures reason { IsKept ⟦<Reason as Clone>⟧.is_clone (λ it. it) }
    ensures shown { IsKept ⟦<Shown as Clone>⟧.is_clone (λ it. it) }
    ensures options { IsKept ⟦<ShowOptions as Clone>⟧.is_clone (λ it. it) }
    ensures source { IsKept ⟦<Source<'static> as Clone>⟧.is_clone (λ it. it) }
    ensures form { IsKept ⟦<LineForm<'static> as Clone>⟧.is_clone (λ it. it) }
{}
