//! Texts by their head parts.

use std::alloc::AllocError;
use vd_base::Text;
use vd_heads::{head_part, header_lines};
use vd_outline::outline_of;

#[test]
fn texts_have_head_parts(rt: HostRuntime) -> Result<(), AllocError> {
    let rows: [(&[u8], &[u8], &[u8]); 3] = [
        (b"interface I\n", b"interface I\n", b""),
        (b"link l\nunits\nu\nend\n", b"link l\nunits\nu\nend\n", b""),
        (
            b"unit u\nfn f\nx\nend\nuses\nI\nend\nscript f\nend\nspec f\nend\nsub f\nend\ninit\nend\n",
            b"unit u\nuses\nI\nend\nspec f\nend\n",
            b"fn f\nscript f\nsub f\ninit\n",
        ),
    ];
    for (bytes, head, lines) in rows {
        let text = Text::new(rt.alloc(), bytes)?;
        let Ok(outline) = outline_of(rt.alloc(), &text) else {
            return Err(AllocError);
        };
        let own_head = head_part(rt.alloc(), &outline)?;
        let own_lines = header_lines(rt.alloc(), &outline)?;
        assert!(rt; own_head.as_bytes() == head);
        assert!(rt; own_lines.as_bytes() == lines);
    }
    Ok(())
}
