// What the least times of a ring are.
ghost use Rattle.sercos_planning.specs.Clauses.{WishesView, sent, IsValid, least_t1, least_t2, least_t3, chain_of, AreLeast, IsLeastChain};

/// States that the least times of a ring keep the inequalities 1 to 7 between its time slots, whether a plan fits or not, and that no times
/// that keep these are less, at any place. The links of the chain that proves that none fits are at these times. The planner's input is
/// valid. The function does nothing.
#[tactic(auto, using(crate::proofs::LeastTimesLemmas::are_least, crate::proofs::LeastTimesLemmas::least_chain))]
pub fn least_law()
    ensures times { (w : WishesView) → IsValid w → AreLeast w (least_t1 w (sent w)) (least_t2 w) (least_t3 w) }
    ensures chain { (w : WishesView) → IsValid w → IsLeastChain w (chain_of w) }
{}
