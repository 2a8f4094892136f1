//! The step of RFC 2328, 16 at which an offer was lost, and the reason.
ghost use Rattle.std.specs.Prelude.{◌≡◌};
ghost use Rattle.explained_replay.specs.Reasons as reasons;

use explanation::{OfferKind, Verdict};

/// Returns true if the paths of the offer are among those of its network's route.
pub(crate) fn is_taken(verdict: Verdict) -> bool
    ensures { result ≡ reasons.is_taken verdict }
{
    matches!(verdict, Verdict::Taken)
}

/// Returns the step that decides, for example `16.2 (4)`. If the kind of offer cannot have the
/// verdict, returns the section that examines this kind.
pub(crate) fn step_of(kind: OfferKind, verdict: Verdict) -> &'static str
    ensures { result.now ≡ reasons.step_text kind verdict }
{
    match kind {
        OfferKind::Stub(_) | OfferKind::Transit => intra_step(verdict),
        OfferKind::Summary(_) => inter_step(verdict),
        OfferKind::AsExternal(_, _) => external_step(verdict),
    }
}

// Returns the step for the offers of router-LSAs and network-LSAs.
fn intra_step(verdict: Verdict) -> &'static str
    ensures { result.now ≡ reasons.intra_step verdict }
{
    match verdict {
        Verdict::MaxAge | Verdict::Another | Verdict::Unreached => "16.1 (2b)",
        Verdict::LesserId => "16.1 (4)",
        Verdict::LesserArea => "16.8",
        _ => "16.1",
    }
}

// Returns the step for the offers of summary-LSAs.
fn inter_step(verdict: Verdict) -> &'static str
    ensures { result.now ≡ reasons.inter_step verdict }
{
    match verdict {
        Verdict::MaxAge | Verdict::Infinity => "16.2 (1)",
        Verdict::Own => "16.2 (2)",
        Verdict::ActiveRange => "16.2 (3)",
        Verdict::NoBorderRouter => "16.2 (4)",
        Verdict::IntraArea => "16.2 (6)",
        Verdict::Costlier => "16.2 (7)",
        Verdict::LesserArea => "16.8",
        _ => "16.2",
    }
}

// Returns the step for the offers of AS-external-LSAs.
fn external_step(verdict: Verdict) -> &'static str
    ensures { result.now ≡ reasons.external_step verdict }
{
    match verdict {
        Verdict::MaxAge | Verdict::Infinity => "16.4 (1)",
        Verdict::Own => "16.4 (2)",
        Verdict::NoBoundaryRouter | Verdict::NoForward => "16.4 (3)",
        Verdict::Internal => "16.4 (6a)",
        Verdict::Type2 | Verdict::Metric2 => "16.4 (6b)",
        Verdict::Class => "16.4 (6c)",
        Verdict::Costlier => "16.4 (6d)",
        _ => "16.4",
    }
}

/// Returns the reason why the offer was lost or taken.
pub(crate) fn reason_of(verdict: Verdict) -> &'static str
    ensures { result.now ≡ reasons.reason_text verdict }
{
    match verdict {
        Verdict::Taken => "its paths are among those of the route",
        Verdict::MaxAge => "the LSA is at MaxAge",
        Verdict::Infinity => "its metric is LSInfinity",
        Verdict::Own => "the router itself originated it",
        Verdict::Another => "another network-LSA stands for the transit network",
        Verdict::Unreached => "no links that both ends have lead there",
        Verdict::NoInterface => "no interface of the area that is up lies in it",
        Verdict::LesserId => {
            "another transit network of this prefix, at the same distance, has a greater Link State ID"
        }
        Verdict::LesserArea => "another area offers the same cost, and has a greater Area ID",
        Verdict::NotExamined => "the summary-LSAs of the area are not examined",
        Verdict::ActiveRange => "the network is that of an active range",
        Verdict::NoBorderRouter => "the border router is not reached in the area",
        Verdict::IntraArea => "there is an intra-area route",
        Verdict::NoBoundaryRouter => "the AS boundary router is not reached",
        Verdict::NoForward => {
            "the forwarding address is in no network that has an intra-area or inter-area route"
        }
        Verdict::Internal => "there is an intra-area or inter-area route",
        Verdict::Type2 => "another one has a metric of type 1",
        Verdict::Metric2 => "another one has a lesser metric of type 2",
        Verdict::Class => {
            "another one leads over an intra-area path through another area than the backbone"
        }
        Verdict::Costlier => "another one costs less",
    }
}
