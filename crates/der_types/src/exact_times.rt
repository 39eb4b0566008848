//! Times of RFC 5280 from 2050 on as a type of ASN.1.
ghost use Rattle.std.proofs.Common.{lit≤};
ghost use Rattle.std.specs.Prelude.{[], refl};
ghost use Rattle.der_types.specs.ContentForms as form;
ghost use Rattle.der_types.specs.ContentsFacts.{contents_of};
ghost use Rattle.der_types.specs.Exact.{content_exact, plain_values};
ghost use Rattle.der_types.specs.ExactContents.{own_contents};
ghost use Rattle.der_types.specs.ExactTimes.{later_made};
ghost use Rattle.der_types.specs.TimeContents.{is_later_time};
ghost use Rattle.der_types.specs.TimeLaws.{later-valid};
ghost use Rattle.der_types.specs.TimeValues.{generalized_content};

use crate::{Exact, ExactContents, LaterTime, Notated};

impl Notated for LaterTime {
    ghost notation = { form.GeneralizedTime-later };

    ghost denoted = { refl };
}

impl Exact for LaterTime {
    ghost values = { plain_values form.GeneralizedTime-later (contents_of 0x18 (λ it. generalized_content it.at []))
        (content_exact 0x18 is_later_time (λ it. generalized_content it.at []) (λ it. later-valid it.at it.later)
        (λ s e h. later_made s e)) };

    ghost exact = { Prim.assumption };
}

impl ExactContents for LaterTime {
    ghost own_contents = { own_contents 0x18 (λ it. generalized_content it.at []) (lit≤ tt) };

    ghost exact_contents = { Prim.assumption };
}
