use design::Accepted;
use records::Input;

// What a cycle reads: the design, and the inputs.
#[derive(Drop)]
pub struct Board<'a, 'b, L> {
    pub design: &'a Accepted<L>,
    pub inputs: &'b [Input],
}
